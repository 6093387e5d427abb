// The mean of a line's estimate, from the second part of the scratch into the third.
ghost use Rattle.std.specs.Prelude.{◌≡◌, ◌*◌, ◌-◌, ◌+◌, ◌/◌, ◌≤◌, ◌<◌, nat_abs, true, length};
ghost use Rattle.std.specs.Int.Signed.{shr_z};
ghost use Rattle.image.specs.Refusal.{max_side};
ghost use Rattle.line.specs.Kernel.{longest_blur, largest, Reciprocal, MeanAsked, window_at, MeansWritten, sample_at};

use crate::window::slide;
use raster::border::LineBorderMode;

// A line's mean: its settings, with the reciprocal of the length, or 0 for a division by it.
#[derive(Clone, Copy, Debug, PartialEq, Eq)]
pub struct MeanSettings {
    pub n: usize,
    pub blur_length: usize,
    pub reciprocal: u64,
    pub border: LineBorderMode,
}

// The reciprocal of the length, which divides the sums of the first 10 iterations; 0 for the larger ones of the others.
pub(crate) fn reciprocal_of(blur_length: usize, iteration: usize) -> u64
    requires { (1 ≤ blur_length) × (blur_length ≤ longest_blur) }
    ensures { Reciprocal blur_length result × (0 < result → iteration < 10) }
{
    if iteration < 10 {
        return 4398046511104 / (blur_length as u64) + 1;
    }
    0
}

// The floor of sum / blur_length by a multiplication: with 2^18 times the length more, the sum is not negative.
fn floor_by_mul(sum: i64, blur_length: usize, reciprocal: u64) -> i32
    requires { Reciprocal blur_length reciprocal × (0 < reciprocal) × (nat_abs sum ≤ blur_length * 262144) }
    ensures { result ≡ shr_z sum blur_length }
{
    let raised = (sum + blur_length as i64 * 262144) as u64;
    (raised * reciprocal / 4398046511104) as i32 - 262144
}

fn floor_mean(sum: i64, blur_length: usize, reciprocal: u64) -> i32
    requires { Reciprocal blur_length reciprocal × (nat_abs sum ≤ blur_length * largest reciprocal) }
    ensures { result ≡ shr_z sum blur_length }
{
    if reciprocal > 0 {
        return floor_by_mul(sum, blur_length, reciprocal);
    }
    sum.div_euclid(blur_length as i64) as i32
}

impl MeanSettings {
    // The estimate at the place u - blur_length / 2, which where INSIDE is on the line.
    fn sample<const INSIDE: bool>(self, scratch: &[i32], u: usize) -> i32
        requires asked { (1 ≤ self.n) × (self.n ≤ max_side) × (3 * self.n ≤ length scratch.now) }
        requires inside { INSIDE ≡ true → (self.blur_length / 2 ≤ u)
            × (u < self.n + self.blur_length / 2) }
        ensures { result ≡ sample_at self scratch.now u }
    {
        if INSIDE {
            return scratch[self.n + (u - self.blur_length / 2)];
        }
        self.sample_at(scratch, u)
    }

    // The means at the places from start to end, from the window's sum at start; the sum at end. Where INSIDE, the samples
    // that enter and leave are on the line.
    fn means<const INSIDE: bool>(
        self,
        scratch: &mut [i32],
        start: usize,
        end: usize,
        first: i64,
    ) -> i64
        requires asked { MeanAsked self scratch.old }
        requires on { (start ≤ end) × (end ≤ self.n) }
        requires inside { INSIDE ≡ true → (self.blur_length / 2 ≤ start)
            × (end + (self.blur_length - self.blur_length / 2) ≤ self.n) }
        requires sum { first ≡ window_at self scratch.old start }
        ensures { MeansWritten self start end scratch.old scratch.new
            × (result ≡ window_at self scratch.old end) }
    {
        let mut sum = first;
        for p in start..end {
            scratch[self.n + self.n + p] = floor_mean(sum, self.blur_length, self.reciprocal);
            let entering = self.sample::<INSIDE>(scratch, p + self.blur_length);
            let leaving = self.sample::<INSIDE>(scratch, p);
            sum = slide(sum, entering, leaving);
        }
        sum
    }

    // The mean of the estimate into the third part.
    pub(crate) fn line_mean(self, scratch: &mut [i32])
        requires { MeanAsked self scratch.old }
        ensures { MeansWritten self 0 self.n scratch.old scratch.new }
    {
        let half = self.blur_length / 2;
        let ahead = self.blur_length - half;
        let first = self.first_window(scratch);
        if self.n < self.blur_length {
            self.means::<false>(scratch, 0, self.n, first);
            return;
        }
        let at_half = self.means::<false>(scratch, 0, half, first);
        let at_tail = self.means::<true>(scratch, half, self.n - ahead, at_half);
        self.means::<false>(scratch, self.n - ahead, self.n, at_tail);
    }
}
