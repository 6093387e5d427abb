// The sum of the estimate's window at the first place, and one place on.
ghost use Rattle.std.specs.Prelude.{◌≡◌, ◌*◌, ◌^◌, ◌≤◌, ◌<◌, pos, nat_abs, ◌+ℤ◌, ◌-ℤ◌, ◌*ℤ◌, length};
ghost use Rattle.numbers.specs.Sum.{total};
ghost use Rattle.image.specs.Refusal.{max_side};
ghost use Rattle.line.specs.Kernel.{longest_blur, line_at, MeanAsked, map_of, window_at, sample_at};
ghost use Rattle.line.specs.Kernel.{opening, FlatBorder, PeriodicBorder};

use crate::mean::MeanSettings;
use raster::border::{BorderSample, LineBorderMode, border_index, reflected_period};

// A window's sum, one place on; the difference first, so that the loops wait for one addition only.
pub(crate) fn slide(sum: i64, entering: i32, leaving: i32) -> i64
    requires { nat_abs sum < 2 ^ 62 }
    ensures { result ≡ sum +ℤ entering -ℤ leaving }
{
    sum + (i64::from(entering) - i64::from(leaving))
}

fn times(count: usize, v: i64) -> i64
    requires { (count ≤ longest_blur) × (nat_abs v < 2 ^ 51) }
    ensures { result ≡ pos count *ℤ v }
{
    count as i64 * v
}

impl MeanSettings {
    // The estimate at the place u - blur_length / 2.
    pub(crate) fn sample_at(self, scratch: &[i32], u: usize) -> i32
        requires { (1 ≤ self.n) × (self.n ≤ max_side) × (3 * self.n ≤ length scratch.now) }
        ensures { result ≡ sample_at self scratch.now u }
    {
        match border_index(u, self.blur_length / 2, self.n, self.border) {
            BorderSample::Inside(i) => scratch[self.n + i],
            BorderSample::Outside(value) => i32::from(value),
        }
    }

    // The sum of the first count samples of the window at the first place.
    fn opening_sum(self, scratch: &[i32], count: usize) -> i64
        requires { MeanAsked self scratch.now × (count ≤ self.blur_length) }
        ensures { result ≡ opening self scratch.now count }
    {
        let mut sum = 0;
        for u in 0..count {
            sum = slide(sum, self.sample_at(scratch, u), 0);
        }
        sum
    }

    // The sum of the first count samples of the estimate.
    fn line_sum(self, scratch: &[i32], count: usize) -> i64
        requires { MeanAsked self scratch.now × (count ≤ self.n) }
        ensures { result ≡ total (line_at self.n scratch.now) 0 count }
    {
        let mut sum = 0;
        for i in 0..count {
            sum = slide(sum, scratch[self.n + i], 0);
        }
        sum
    }

    // The sum of the window at the first place, of a border that has one sample before the line and one behind it.
    fn flat_window(self, scratch: &[i32]) -> i64
        requires { MeanAsked self scratch.now × FlatBorder self.n (map_of self) }
        ensures { result ≡ window_at self scratch.now 0 }
    {
        let half = self.blur_length / 2;
        let ahead = self.blur_length - half;
        let inside = ahead.min(self.n);
        let before = times(half, i64::from(self.sample_at(scratch, 0)));
        let behind = times(
            ahead - inside,
            i64::from(self.sample_at(scratch, half + self.n)),
        );
        before + self.line_sum(scratch, inside) + behind
    }

    // The sum of the window at the first place, of a border that comes again after a period: whole periods and a rest.
    fn periodic_window(self, scratch: &[i32], period: usize) -> i64
        requires { MeanAsked self scratch.now × PeriodicBorder period (map_of self) }
        ensures { result ≡ window_at self scratch.now 0 }
    {
        if self.blur_length < period {
            return self.opening_sum(scratch, self.blur_length);
        }
        let whole = times(self.blur_length / period, self.opening_sum(scratch, period));
        whole + self.opening_sum(scratch, self.blur_length % period)
    }

    // The sum of the window at the first place, in time that does not grow with the length.
    pub(crate) fn first_window(self, scratch: &[i32]) -> i64
        requires { MeanAsked self scratch.now }
        ensures { result ≡ window_at self scratch.now 0 }
    {
        match self.border {
            LineBorderMode::Reflect => self.periodic_window(scratch, reflected_period(self.n)),
            LineBorderMode::Replicate => self.flat_window(scratch),
            LineBorderMode::Constant(_) => self.flat_window(scratch),
            LineBorderMode::Wrap => self.periodic_window(scratch, self.n),
        }
    }
}
