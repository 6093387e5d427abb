// As many halvings as stated. The first reads the source and the last writes the destination; what is between them
// stands in the scratch, at the front of one part of it and of the other in turn.
ghost use Rattle.std.specs.Prelude.{◌+◌, ◌*◌, ◌/◌, ◌≤◌, length};
ghost use Rattle.numbers.specs.Written.{Painted};
ghost use Rattle.image.specs.Refusal.{Laid};
ghost use Rattle.image.specs.Picture.{pixel};
ghost use Rattle.image.specs.View.{LaidView};
ghost use Rattle.resize.specs.Halving.{side_after, halved_times};

use crate::half::half_rows;
use image::Gray8View;

// The tight picture at the front of a part, by one halving and `more` behind it. It ends since `more` falls. No view of
// the parts: they change places. Of the destination bytes and stride: its sides follow.
fn halve_on(
    part: &mut [u8],
    width: usize,
    height: usize,
    other: &mut [u8],
    dst: &mut [u8],
    dst_stride: usize,
    more: usize,
)
    requires laid { Laid (length part.old) width height width }
    requires laid_2 { Laid (length dst.old) (side_after (more + 1) width) (side_after (more + 1) height) dst_stride }
    requires other_len { width / 2 * (height / 2) ≤ length other.old }
    ensures { Painted 0 (halved_times (more + 1) (pixel part.old width))
        (side_after (more + 1) width) (side_after (more + 1) height) dst_stride dst.old dst.new }
{
    let picture = Gray8View::new(part, width, height, width);
    if more == 0 {
        half_rows(picture, dst, dst_stride);
        return;
    }
    half_rows(picture, other, width / 2);
    halve_on(
        other,
        width / 2,
        height / 2,
        part,
        dst,
        dst_stride,
        more - 1,
    );
}

// Of the destination bytes and stride: its sides follow from the count.
pub(crate) fn halve_times<'a>(
    src: Gray8View<'a>,
    dst: &mut [u8],
    dst_stride: usize,
    count: usize,
    scratch: &mut [u8],
)
    requires laid { LaidView src }
    requires laid_2 { Laid (length dst.old) (side_after count src.width) (side_after count src.height) dst_stride }
    requires scratch_len { src.width * src.height ≤ length scratch.old }
    ensures { Painted 0 (halved_times count (pixel src.entry.«data».now src.entry.stride))
        (side_after count src.entry.width) (side_after count src.entry.height) dst_stride dst.old dst.new }
{
    if count == 0 {
        image::kernel::copy_rows(src, dst, dst_stride);
        return;
    }
    if count == 1 {
        half_rows(src, dst, dst_stride);
        return;
    }
    let half_width = src.width / 2;
    let half_height = src.height / 2;
    let (front, back) = scratch.split_at_mut(half_width * half_height);
    half_rows(src, front, half_width);
    halve_on(
        front,
        half_width,
        half_height,
        back,
        dst,
        dst_stride,
        count - 2,
    );
}
