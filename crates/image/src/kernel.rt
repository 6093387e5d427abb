// A picture into another of its size.
ghost use Rattle.std.specs.Prelude.{length};
ghost use Rattle.numbers.specs.Written.{Painted};
ghost use Rattle.image.specs.Refusal.{Laid};
ghost use Rattle.image.specs.Picture.{pixel};
ghost use Rattle.image.specs.View.{LaidView};

use crate::Gray8View;

// The pixels of a picture into another of its size, row by row. Of that one bytes and stride: its sides are the same.
pub fn copy_rows<'a>(src: Gray8View<'a>, dst: &mut [u8], dst_stride: usize)
    requires laid { LaidView src }
    requires laid_dst { Laid (length dst.old) src.width src.height dst_stride }
    ensures { Painted 0 (pixel src.entry.«data».now src.entry.stride) src.entry.width src.entry.height dst_stride
        dst.old dst.new }
{
    for y in 0..src.height {
        let from = y * src.stride;
        let to = y * dst_stride;
        dst[to..to + src.width].copy_from_slice(&src.data[from..from + src.width]);
    }
}
