// One halving, two rows to one.
ghost use Rattle.std.specs.Prelude.{◌≡◌, ◌+◌, ◌*◌, ◌/◌, ◌≤◌, ◌<◌, length};
ghost use Rattle.numbers.specs.Written.{Written, Painted, front, part};
ghost use Rattle.image.specs.Refusal.{Laid};
ghost use Rattle.image.specs.Picture.{pixel};
ghost use Rattle.image.specs.View.{LaidView};
ghost use Rattle.resize.specs.Halving.{mean_of_four, halved};
ghost use Rattle.resize.specs.Rows.{half_at};

use image::Gray8View;

// A half is rounded up. No sum passes 4 × 255 + 2, so 16 bits hold it.
#[tactic(auto, unfolding(crate::specs::Halving::mean_of_four))]
fn mean_of_four(a: u8, b: u8, c: u8, d: u8) -> u8
    ensures { result ≡ mean_of_four a b c d }
{
    ((u16::from(a) + u16::from(b) + u16::from(c) + u16::from(d) + 2) / 4) as u8
}

// The mean for column x, of two rows.
fn mean_at(above: &[u8], below: &[u8], x: usize) -> u8
    requires { (2 * x + 1 < length above.now) × (2 * x + 1 < length below.now) }
    ensures { result ≡ half_at above.now below.now x }
{
    mean_of_four(
        above[2 * x],
        above[2 * x + 1],
        below[2 * x],
        below[2 * x + 1],
    )
}

// Eight columns from x on. All are computed before any is written: of this the compiler makes vector code, of one at a
// time it does not, and `copy_from_slice` takes the eight through memory once more.
fn half_eight(above: &[u8], below: &[u8], dst: &mut [u8], x: usize)
    requires x_in_bounds { x + 8 ≤ length dst.old }
    requires dst_in_bounds { (2 * length dst.old ≤ length above.now) × (2 * length dst.old ≤ length below.now) }
    ensures { Written 0 (part x 8) (half_at above.now below.now) dst.old
        dst.new }
{
    let mut means = [0; 8];
    for (i, mean) in means.iter_mut().enumerate() {
        *mean = mean_at(above, below, x + i);
    }
    for (i, &mean) in means.iter().enumerate() {
        dst[x + i] = mean;
    }
}

// The columns by eights, as many as there are; where they end.
fn half_eights(above: &[u8], below: &[u8], dst: &mut [u8]) -> usize
    requires { (2 * length dst.old ≤ length above.now) × (2 * length dst.old ≤ length below.now) }
    ensures { (result ≤ length dst.old) × Written 0 (front result)
        (half_at above.now below.now) dst.old dst.new }
{
    let eights = dst.len() / 8;
    for i in 0..eights {
        half_eight(above, below, dst, 8 * i);
    }
    8 * eights
}

// A row from the two that it halves. An odd last column is not read.
fn half_row(above: &[u8], below: &[u8], dst: &mut [u8])
    requires { (2 * length dst.old ≤ length above.now) × (2 * length dst.old ≤ length below.now) }
    ensures { Written 0 (front (length dst.old)) (half_at above.now below.now)
        dst.old dst.new }
{
    for x in half_eights(above, below, dst)..dst.len() {
        dst[x] = mean_at(above, below, x);
    }
}

// A picture into one of half its sides, of which bytes and stride are passed: its sides follow.
pub(crate) fn half_rows<'a>(src: Gray8View<'a>, dst: &mut [u8], dst_stride: usize)
    requires laid { LaidView src }
    requires laid_2 { Laid (length dst.old) (src.width / 2) (src.height / 2) dst_stride }
    ensures { Painted 0 (halved (pixel src.entry.«data».now src.entry.stride)) (src.entry.width / 2)
        (src.entry.height / 2) dst_stride dst.old dst.new }
{
    let half = src.width / 2;
    for y in 0..src.height / 2 {
        let above = 2 * y * src.stride;
        let below = (2 * y + 1) * src.stride;
        let to = y * dst_stride;
        half_row(
            &src.data[above..above + src.width],
            &src.data[below..below + src.width],
            &mut dst[to..to + half],
        );
    }
}
