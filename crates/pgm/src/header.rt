// Reading a header, byte by byte from the file's front: its length is all that the time depends on.
ghost use Rattle.std.specs.Prelude.{◌≡◌, false, ◌≤◌, length};
ghost use Rattle.image.specs.Call.{told};
ghost use Rattle.pgm.specs.Form.{is_end, is_white};
ghost use Rattle.pgm.specs.Read.{skips, comments, behind_gaps, read_field, read_header};
ghost use Rattle.pgm.specs.Held.{NumberOf, HeldIf, HeldNumber, HeldHeader, Shows, behind_white, picture_decision};

use crate::PgmPicture;
use image::{Gray8View, Refusal};

// A number, cut to `MOST`, and what stands behind it.
#[derive(Clone, Copy)]
pub(crate) struct Number<'a> {
    value: usize,
    rest: &'a [u8],
}

// The numbers, cut to `MOST`, and the pixels.
#[derive(Clone, Copy)]
pub(crate) struct Header<'a> {
    width: usize,
    height: usize,
    maximum: usize,
    pixels: &'a [u8],
}

// No larger number is told from another: it is too large a side, and no maximum that is read.
const MOST: usize = Gray8View::MAX_SIDE + 1;

// Tests of a byte by `|`, without a branch: by `matches!` the bytes of a comment take three times as long.
fn is_end(byte: u8) -> bool
    ensures { result ≡ is_end byte }
{
    (byte == b'\n') | (byte == b'\r')
}

fn is_white(byte: u8) -> bool
    ensures { result ≡ is_white byte }
{
    (byte == b' ') | (byte == b'\t') | (byte == b'\n') | (byte == b'\r')
}

// Whether a byte belongs to a gap, within a comment or not.
fn skips(comment: bool, byte: u8) -> bool
    ensures { result ≡ skips comment byte }
{
    comment | is_white(byte) | (byte == b'#')
}

// Whether the next byte is within a comment.
fn comments(comment: bool, byte: u8) -> bool
    ensures { result ≡ comments comment byte }
{
    (comment | (byte == b'#')) & !is_end(byte)
}

// What stands behind the gaps that begin here. A comment without an end goes to the file's end.
fn skip_gaps(bytes: &[u8]) -> &[u8]
    ensures { result.now ≡ behind_gaps false bytes.now }
{
    let mut comment = false;
    for (i, &byte) in bytes.iter().enumerate() {
        if !skips(comment, byte) {
            return &bytes[i..];
        }
        comment = comments(comment, byte);
    }
    &[]
}

// The number whose digits begin here; 0 where there is no digit.
fn number_at(bytes: &[u8]) -> Number<'_>
    ensures { NumberOf bytes.now result }
{
    let mut value = 0;
    for (i, &byte) in bytes.iter().enumerate() {
        if !byte.is_ascii_digit() {
            return Number {
                value,
                rest: &bytes[i..],
            };
        }
        value = (10 * value + usize::from(byte - b'0')).min(MOST);
    }
    Number { value, rest: &[] }
}

// A gap or more, and a number.
fn field_at(bytes: &[u8]) -> Option<Number<'_>>
    ensures { HeldIf HeldNumber (read_field bytes.now) result }
{
    let digits = skip_gaps(bytes);
    if digits.len() == bytes.len() {
        return None;
    }
    let number = number_at(digits);
    if number.rest.len() == digits.len() {
        return None;
    }
    Some(number)
}

// What stands behind the white byte here.
fn behind_white(bytes: &[u8]) -> Option<&[u8]>
    ensures { HeldIf Shows (behind_white bytes.now) result }
{
    match bytes {
        [first, rest @ ..] if is_white(*first) => Some(rest),
        _ => None,
    }
}

pub(crate) fn read_header(file: &[u8]) -> Option<Header<'_>>
    ensures { HeldIf HeldHeader (read_header file.now) result }
{
    let fields = file.strip_prefix(b"P5")?;
    let width = field_at(fields)?;
    let height = field_at(width.rest)?;
    let maximum = field_at(height.rest)?;
    Some(Header {
        width: width.value,
        height: height.value,
        maximum: maximum.value,
        pixels: behind_white(maximum.rest)?,
    })
}

// What a header says of a file of len bytes.
#[tactic(auto, unfolding(crate::specs::Read::picture_refusal))]
pub(crate) fn picture_of<'a>(header: Header<'a>, len: usize) -> Result<PgmPicture, Refusal>
    requires { length header.pixels.now ≤ len }
    ensures { told result ≡ picture_decision header.entry len }
{
    image::check_sides(header.width, header.height)?;
    if header.maximum != 255 {
        return Err(Refusal::UnsupportedMaximum);
    }
    if header.pixels.len() != header.width * header.height {
        return Err(Refusal::PixelCountMismatch);
    }
    Ok(PgmPicture {
        width: header.width,
        height: header.height,
        start: len - header.pixels.len(),
    })
}
