// The two passes: sums of five across each row into the scratch, then sums of five down the scratch. A row is one
// contiguous loop over parts of slices, without a test of borders in it.
ghost use Rattle.std.specs.Prelude.{◌≡◌, ℕ, ◌+◌, ◌-◌, ◌*◌, ◌≤◌, ◌<◌, length};
ghost use Rattle.numbers.specs.Written.{Written, Painted, front, part};
ghost use Rattle.image.specs.Refusal.{max_side, Laid};
ghost use Rattle.image.specs.Picture.{pixel};
ghost use Rattle.image.specs.View.{LaidView};
ghost use Rattle.sharpen.specs.Binomial.{tap_place, sharper, unsharp};
ghost use Rattle.sharpen.specs.Passes.{weighed, sum_at, inside_at, Sums, RowSums};

use image::Gray8View;

// Where tap i of place p lies, in a line of n.
#[tactic(auto, unfolding(crate::specs::Binomial::tap_place))]
pub fn tap_place(n: usize, p: usize, i: usize) -> usize
    requires { (p < n) × (i ≤ 4) × (n ≤ max_side) }
    ensures { result ≡ tap_place n p i }
{
    (p + i).saturating_sub(2).min(n - 1)
}

// No sum of sums of bytes passes 16 × 4080, so 16 bits hold it. Five numbers: an array would be taken apart again.
pub fn weigh(a: u16, b: u16, c: u16, d: u16, e: u16) -> u16
    requires { (a ≤ 4080) × (b ≤ 4080) × (c ≤ 4080) × (d ≤ 4080) × (e ≤ 4080) }
    ensures { result ≡ weighed a b c d e }
{
    a + 4 * b + 6 * c + 4 * d + e
}

pub fn weigh_bytes(a: u8, b: u8, c: u8, d: u8, e: u8) -> u16
    ensures { result ≡ weighed a b c d e }
{
    weigh(
        u16::from(a),
        u16::from(b),
        u16::from(c),
        u16::from(d),
        u16::from(e),
    )
}

// The sum at a column, borders and all.
pub fn column_sum(row: &[u8], x: usize) -> u16
    requires { (x < length row.now) × (length row.now ≤ max_side) }
    ensures { result ≡ sum_at row.now x }
{
    let n = row.len();
    let a = tap_place(n, x, 0);
    let b = tap_place(n, x, 1);
    let d = tap_place(n, x, 3);
    let e = tap_place(n, x, 4);
    weigh_bytes(row[a], row[b], row[x], row[d], row[e])
}

// The sums at the columns from a start to an end.
pub fn blur_ends(row: &[u8], out: &mut [u16], start: usize, end: usize)
    requires { (length out.old ≡ length row.now) × (length row.now ≤ max_side) × (start ≤ end)
        × (end ≤ length row.now) }
    ensures { Written 0 (part start (end - start)) (sum_at row.now)
        out.old out.new }
{
    for x in start..end {
        out[x] = column_sum(row, x);
    }
}

// The sums at the columns that have two neighbours on each side: out starts at the third column and ends two before the
// last.
pub fn blur_inside(row: &[u8], out: &mut [u16])
    requires { length row.now ≡ length out.old + 4 }
    ensures { Written 0 (front (length out.old)) (inside_at row.now)
        out.old out.new }
{
    for x in 0..out.len() {
        out[x] = weigh_bytes(row[x], row[x + 1], row[x + 2], row[x + 3], row[x + 4]);
    }
}

// A row of sums: two columns, those inside, two columns.
pub fn blur_row(row: &[u8], out: &mut [u16])
    requires { (length out.old ≡ length row.now) × (length row.now ≤ max_side) }
    ensures sums { Written 0 (front (length row.now)) (sum_at row.now)
        out.old out.new }
    ensures most { (x : ℕ) → x < length row.now → sum_at row.now x ≤ 4080 }
{
    let n = row.len();
    if n < 5 {
        blur_ends(row, out, 0, n);
        return;
    }
    let end = n - 2;
    blur_ends(row, out, 0, 2);
    blur_inside(row, &mut out[2..end]);
    blur_ends(row, out, end, n);
}

// The first pass.
pub fn blur_rows<'a>(src: Gray8View<'a>, scratch: &mut [u16])
    requires laid { LaidView src }
    requires height_in_bounds { src.width * src.height ≤ length scratch.old }
    ensures { RowSums (pixel src.entry.«data».now src.entry.stride) src.entry.width src.entry.height scratch.new }
{
    for y in 0..src.height {
        let from = y * src.stride;
        let to = y * src.width;
        blur_row(
            &src.data[from..from + src.width],
            &mut scratch[to..to + src.width],
        );
    }
}

pub fn sharpen_pixel(p: u8, sum: u16) -> u8
    requires { sum ≤ 65280 }
    ensures { result ≡ sharper p sum }
{
    let blur = (sum + 128) / 256;
    (2 * u16::from(p)).saturating_sub(blur).min(255) as u8
}

// A picture with the sums of its rows, row behind row.
#[derive(Clone, Copy)]
pub struct Blurred<'a> {
    src: Gray8View<'a>,
    sums: &'a [u16],
    ghost laid: { LaidView src },
    ghost fits: { src.width * src.height ≤ length sums.now },
    ghost row_sums: { RowSums (pixel src.«data».now src.stride) src.width src.height sums.now },
}

impl<'a> Blurred<'a> {
    // The first pass, into the scratch.
    pub fn new(src: Gray8View<'a>, scratch: &'a mut [u16]) -> Blurred<'a>
        requires laid { LaidView src }
        requires fits { src.width * src.height ≤ length scratch.old }
        ensures { result.src ≡ src.entry }
    {
        blur_rows(src, scratch);
        Blurred { src, sums: scratch }
    }

    // The row of sums at tap i of row y.
    fn tap_row(self, y: usize, i: usize) -> &'a [u16]
        requires { (y < self.src.height) × (i ≤ 4) }
        ensures { Sums (pixel self.entry.src.«data».now self.entry.src.stride) self.entry.src.width
            (tap_place self.entry.src.height y i) result.now }
    {
        let start = tap_place(self.src.height, y, i) * self.src.width;
        &self.sums[start..start + self.src.width]
    }

    // Row y of the second pass.
    fn sharpen_row(self, y: usize, dst: &mut [u8])
        requires row { y < self.src.height }
        requires wide { length dst.old ≡ self.src.width }
        ensures { Written 0 (front (length dst.old))
            (λ x. unsharp (pixel self.entry.src.«data».now self.entry.src.stride) self.entry.src.width
            self.entry.src.height x y)
            dst.old dst.new }
    {
        let from = y * self.src.stride;
        let row = &self.src.data[from..from + self.src.width];
        let a = self.tap_row(y, 0);
        let b = self.tap_row(y, 1);
        let c = self.tap_row(y, 2);
        let d = self.tap_row(y, 3);
        let e = self.tap_row(y, 4);
        for x in 0..dst.len() {
            dst[x] = sharpen_pixel(row[x], weigh(a[x], b[x], c[x], d[x], e[x]));
        }
    }

    // The second pass.
    // Of the destination bytes and stride: its sides are the source's.
    pub fn sharpen(self, dst: &mut [u8], dst_stride: usize)
        requires laid { Laid (length dst.old) self.src.width self.src.height dst_stride }
        ensures { Painted 0 (unsharp (pixel self.entry.src.«data».now self.entry.src.stride)
            self.entry.src.width self.entry.src.height)
            self.entry.src.width self.entry.src.height dst_stride dst.old dst.new }
    {
        for y in 0..self.src.height {
            let to = y * dst_stride;
            self.sharpen_row(y, &mut dst[to..to + self.src.width]);
        }
    }
}
