// The direction of the smear, from the sums of products of the Sobel gradients.
ghost use Rattle.std.specs.Prelude.{◌≡◌, ◌+◌, ◌*◌, ◌^◌, ◌<◌, pos, nat_abs, ◌+ℤ◌, ◌-ℤ◌, ◌*ℤ◌, length, []};
ghost use Rattle.image.specs.Call.{told};
ghost use Rattle.image.specs.Picture.{pixel};
ghost use Rattle.image.specs.View.{LaidView, seen};
ghost use Rattle.tensor.specs.Tensor.{smooth, gradient_x, gradient_y, Gradient, three_rows, Rows, row_sums, Small};
ghost use Rattle.tensor.specs.Tensor.{tensor_sums, tensor_direction, direction_decision};
ghost use Rattle.tensor.specs.Confidence.{confident_decision};

use crate::confidence::{is_confident, no_direction};
use image::{Gray8View, Refusal};
use raster::direction::RasterDirection4;

// Sums of products of the gradients: a of gx gx, c of gx gy, e of gy gy.
#[derive(Clone, Copy, Debug, PartialEq, Eq)]
pub struct Sums<T> {
    pub a: T,
    pub c: T,
    pub e: T,
}

// Those of one row fit 32 bits.
pub type RowSums = Sums<i32>;

// Those of a picture.
pub type TensorSums = Sums<i64>;

// The direction, and the sums that it follows from.
#[derive(Clone, Copy, Debug, PartialEq, Eq)]
pub struct DirectionEstimate {
    pub direction: RasterDirection4,
    pub sums: TensorSums,
}

// Three pixels with weights 1 2 1.
fn weighted(u: u8, v: u8, w: u8) -> i16
    ensures { result ≡ pos (smooth u v w) }
{
    (u16::from(u) + 2 * u16::from(v) + u16::from(w)) as i16
}

// Three pixels against three on the other side. 16 bits, which is what the vector code of `row_sums` multiplies.
fn gradient(u: u8, v: u8, w: u8, u2: u8, v2: u8, w2: u8) -> i16
    ensures { Gradient (pos (smooth u2 v2 w2) -ℤ pos (smooth u v w)) result }
{
    weighted(u2, v2, w2) - weighted(u, v, w)
}

#[tactic(auto, unfolding(crate::specs::Tensor::gradient_x))]
fn gradient_x(above: &[u8], here: &[u8], below: &[u8], x: usize) -> i16
    requires { (x + 2 < length above.now) × (x + 2 < length here.now) × (x + 2 < length below.now) }
    ensures { Gradient (gradient_x (three_rows above.now here.now below.now) x 0)
        result }
{
    let right = x + 2;
    gradient(
        above[x],
        here[x],
        below[x],
        above[right],
        here[right],
        below[right],
    )
}

// No pixel of the row between is read. The middle column has slices of its own: the compiler then carries no load from
// one turn of the caller's loop to the next, and that loop becomes vector code.
#[tactic(auto, unfolding(crate::specs::Tensor::gradient_y))]
fn gradient_y(above: &[u8], below: &[u8], x: usize) -> i16
    requires { (x + 2 < length above.now) × (x + 2 < length below.now) }
    ensures { Gradient (gradient_y (three_rows above.now [] below.now) x 0) result }
{
    let right = x + 2;
    let above_mid = &above[1..];
    let below_mid = &below[1..];
    gradient(
        above[x],
        above_mid[x],
        above[right],
        below[x],
        below_mid[x],
        below[right],
    )
}

fn add_product(sum: i32, u: i16, v: i16) -> i32
    requires { nat_abs sum + nat_abs u * nat_abs v < 2 ^ 31 }
    ensures { result ≡ sum +ℤ u *ℤ v }
{
    sum + i32::from(u) * i32::from(v)
}

// The sums of the row here, between two others.
fn row_sums(above: &[u8], here: &[u8], below: &[u8]) -> RowSums
    requires { Rows above.now here.now below.now }
    ensures { result ≡ row_sums (three_rows above.now here.now below.now)
        (length here.now) 0 }
{
    let mut sums = Sums { a: 0, c: 0, e: 0 };
    for x in 0..here.len().saturating_sub(2) {
        let gx = gradient_x(above, here, below, x);
        let gy = gradient_y(above, below, x);
        sums.a = add_product(sums.a, gx, gx);
        sums.c = add_product(sums.c, gx, gy);
        sums.e = add_product(sums.e, gy, gy);
    }
    sums
}

fn tensor_sums<'a>(src: Gray8View<'a>) -> TensorSums
    requires { LaidView src }
    ensures sums { result ≡ tensor_sums (pixel src.entry.«data».now src.entry.stride) src.entry.width src.entry.height }
    ensures small { Small result.a result.c result.e }
{
    let mut sums = Sums { a: 0, c: 0, e: 0 };
    for y in 0..src.height.saturating_sub(2) {
        let row = row_sums(src.row(y), src.row(y + 1), src.row(y + 2));
        sums.a += i64::from(row.a);
        sums.c += i64::from(row.c);
        sums.e += i64::from(row.e);
    }
    sums
}

#[tactic(auto, unfolding(crate::specs::Tensor::tensor_direction))]
fn tensor_direction(width: usize, height: usize, sums: TensorSums) -> RasterDirection4
    requires { Small sums.a sums.c sums.e }
    ensures { result ≡ tensor_direction width height sums.a sums.c sums.e }
{
    if no_direction(width, height, sums) {
        return RasterDirection4::Horizontal;
    }
    let d = sums.a - sums.e;
    if 2 * sums.c.unsigned_abs() <= d.unsigned_abs() {
        if d >= 0 {
            return RasterDirection4::Vertical;
        }
        return RasterDirection4::Horizontal;
    }
    if sums.c > 0 {
        return RasterDirection4::DownLeft;
    }
    RasterDirection4::DownRight
}

// The direction of the line smear in a picture, with the sums. Refusals 1 to 4 of its layout, and 17 where the
// confidence is below floor / 256 (document 02, K6).
#[tactic(auto, unfolding(crate::specs::Confidence::confident_decision, crate::specs::Tensor::estimate_of))]
pub fn estimate_confident_direction<'a>(
    src: Gray8View<'a>,
    floor: u16,
) -> Result<DirectionEstimate, Refusal>
    ensures { told result ≡ confident_decision floor (seen src.entry) }
{
    src.check()?;
    let sums = tensor_sums(src);
    if !is_confident(src.width, src.height, sums, floor) {
        return Err(Refusal::LowConfidence);
    }
    let direction = tensor_direction(src.width, src.height, sums);
    Ok(DirectionEstimate { direction, sums })
}

// The direction of the line smear in a picture, however unclear, with the sums. Refusals 1 to 4 of its layout.
#[tactic(auto, using(crate::proofs::Answer::confident_0))]
pub fn estimate_line_direction<'a>(src: Gray8View<'a>) -> Result<DirectionEstimate, Refusal>
    ensures { told result ≡ direction_decision (seen src.entry) }
{
    estimate_confident_direction(src, 0)
}
