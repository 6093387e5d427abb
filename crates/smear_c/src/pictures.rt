// Pictures as PGM for C.
ghost use Rattle.image.specs.Call.{gray8, Returns};
ghost use Rattle.pgm.specs.Read.{read_decision};
ghost use Rattle.smear_c.specs.Pictures.{picture_outs, outs, PgmWrittenC};

use crate::number_of;
use image::Gray8View;

#[unsafe(no_mangle)]
pub extern "C" fn smear_read_pgm(
    file: &[u8],
    width: &mut usize,
    height: &mut usize,
    start: &mut usize,
) -> u8
    ensures { Returns (read_decision file.now) picture_outs
        (outs width.old height.old start.old)
        (outs width.new height.new start.new) result }
{
    let answer = pgm::read(file);
    if let Ok(picture) = answer {
        *width = picture.width;
        *height = picture.height;
        *start = picture.start;
    }
    number_of(answer)
}

#[unsafe(no_mangle)]
pub extern "C" fn smear_write_pgm(
    src: &[u8],
    width: usize,
    height: usize,
    stride: usize,
    out: &mut [u8],
    written: &mut usize,
) -> u8
    ensures { PgmWrittenC (gray8 src.now width height stride)
        out.old out.new written.old written.new result }
{
    let answer = pgm::write(Gray8View::new(src, width, height, stride), out);
    if let Ok(n) = answer {
        *written = n;
    }
    number_of(answer)
}
