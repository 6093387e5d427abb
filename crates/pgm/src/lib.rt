// Pictures as Netpbm's P5, one a file (document 02, K3).
#![tactic(auto)]

ghost use Rattle.std.specs.Prelude.{◌≡◌};
ghost use Rattle.image.specs.Call.{told};
ghost use Rattle.image.specs.View.{seen};
ghost use Rattle.pgm.specs.Read.{read_decision, pixels_part};
ghost use Rattle.pgm.specs.Write.{PgmWritten};

use crate::header::{picture_of, read_header};
use crate::lines::{header_length, put_header, put_pixels};
use image::{Gray8View, Refusal};

mod header;
mod lines;

// The picture in a file: its sides, and the place of its first pixel. The pixels are tight and end the file.
#[derive(Clone, Copy, Debug, PartialEq, Eq)]
pub struct PgmPicture {
    pub width: usize,
    pub height: usize,
    pub start: usize,
}

// The picture in a file. Refusals: 14 for a header that breaks the form; then 1 and 2 for its sides, 15 for a maximum
// other than 255, 16 for missing or surplus pixel bytes.
pub fn read(file: &[u8]) -> Result<PgmPicture, Refusal>
    ensures { told result ≡ read_decision file.now }
{
    let Some(header) = read_header(file) else {
        return Err(Refusal::InvalidHeader);
    };
    picture_of(header, file.len())
}

// The part of a file that holds its pixels; the empty part where the file is refused.
pub fn pixels_of(file: &[u8]) -> &[u8]
    ensures { result.now ≡ pixels_part file.now }
{
    match read(file) {
        Ok(picture) => &file[picture.start..],
        Err(_) => &file[..0],
    }
}

// Write a picture to the front of out; how many bytes that were. Refusals 1 to 4 of the picture, then 5 where out is
// too short.
pub fn write<'a>(src: Gray8View<'a>, out: &mut [u8]) -> Result<usize, Refusal>
    ensures { PgmWritten (seen src.entry) out.old out.new result }
{
    src.check()?;
    let start = header_length(src.width, src.height);
    let end = start + src.width * src.height;
    if out.len() < end {
        return Err(Refusal::InvalidDestination);
    }
    put_header(src.width, src.height, out);
    put_pixels(src, &mut out[start..end]);
    Ok(end)
}
