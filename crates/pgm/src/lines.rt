// Writing: the header's four lines, and the pixels behind them.
ghost use Rattle.std.specs.Prelude.{◌≡◌, ◌++◌, ◌+◌, ◌*◌, ◌≤◌, length, drop};
ghost use Rattle.image.specs.Call.{Appended};
ghost use Rattle.image.specs.Picture.{pixel, pixels_of};
ghost use Rattle.image.specs.View.{LaidView};
ghost use Rattle.pgm.specs.Write.{digits, digit_count, number_line, header_lines};

use image::Gray8View;

// How many digits a number below 10,000 has.
#[tactic(auto, unfolding(crate::specs::Write::digit_count))]
fn digit_count(n: usize) -> usize
    ensures { result ≡ digit_count n }
{
    match n {
        0..10 => 1,
        10..100 => 2,
        100..1000 => 3,
        _ => 4,
    }
}

// The last digits of n, as many as fill out.
fn put_digits(n: usize, out: &mut [u8])
    ensures { out.new ≡ digits (length out.old) n }
{
    let mut rest = n;
    for place in (0..out.len()).rev() {
        out[place] = b'0' + (rest % 10) as u8;
        rest /= 10;
    }
}

// A number and an LF, from `at` on; the place behind them.
fn put_number(n: usize, at: usize, out: &mut [u8]) -> usize
    requires { at + length (number_line n) ≤ length out.old }
    ensures { Appended (number_line n) at out.old out.new result }
{
    let end = at + digit_count(n);
    put_digits(n, &mut out[at..end]);
    out[end] = b'\n';
    end + 1
}

// How many bytes the header has.
#[tactic(auto, using(crate::proofs::Digits::count_most, crate::proofs::Digits::length_header))]
pub(crate) fn header_length(width: usize, height: usize) -> usize
    ensures { result ≡ length (header_lines width height) }
{
    9 + digit_count(width) + digit_count(height)
}

// The header, at the front of out.
pub(crate) fn put_header(width: usize, height: usize, out: &mut [u8])
    requires { length (header_lines width height) ≤ length out.old }
    ensures { out.new
        ≡ header_lines width height ++ drop (length (header_lines width height)) out.old }
{
    out[..3].copy_from_slice(b"P5\n");
    let second = put_number(width, 3, out);
    let third = put_number(height, second, out);
    put_number(255, third, out);
}

// The pixels, tight.
pub(crate) fn put_pixels<'a>(src: Gray8View<'a>, out: &mut [u8])
    requires laid { LaidView src }
    requires out_len { length out.old ≡ src.width * src.height }
    ensures { out.new ≡ pixels_of src.entry.width src.entry.height
        (pixel src.entry.«data».now src.entry.stride) }
{
    image::kernel::copy_rows(src, out, src.width);
}
