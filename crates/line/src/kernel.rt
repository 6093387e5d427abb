// One line's restoration, in a scratch of three parts: the observed samples, the estimate, and the estimate's mean.
ghost use Rattle.std.specs.Prelude.{◌+◌, length};
ghost use Rattle.line.specs.Kernel.{LineAsked, KernelAsked, bytes_on, line_at, LineRestored};
ghost use Rattle.line.specs.Kernel.{Gathered, Iterated, IterationAsked};

use crate::mean::{MeanSettings, reciprocal_of};
use crate::step::line_step;
use raster::border::LineBorderMode;

// Where a line lies in a slice: its first place, how far apart its places are, and how many they are.
#[derive(Clone, Copy, Debug, PartialEq, Eq)]
pub struct LinePlaces {
    pub start: usize,
    pub step: usize,
    pub len: usize,
}

// What a line filter does to each line.
#[derive(Clone, Copy, Debug, PartialEq, Eq)]
pub struct LineKernel {
    // Up to twice the longest side and 1.
    pub blur_length: usize,
    // The factor times floats::SCALE.
    pub q: u32,
    // Up to MAX_ITERATIONS.
    pub iterations: usize,
    pub border: LineBorderMode,
}

impl LineKernel {
    pub const MAX_ITERATIONS: usize = 22;
}

// The bytes of a line into the first and the second part of the scratch: the observed samples, and the first estimate.
pub fn gather(data: &[u8], places: LinePlaces, scratch: &mut [i32])
    requires { LineAsked (length «data».now) places.start places.step places.len (length scratch.old) }
    ensures { Gathered (bytes_on «data».now places.start places.step) places.len scratch.new }
{
    for i in 0..places.len {
        let v = i32::from(data[places.start + i * places.step]);
        scratch[i] = v;
        scratch[places.len + i] = v;
    }
}

// One iteration of a line in the scratch: the mean of the estimate after k iterations, then its step.
pub fn iterate_line(n: usize, kernel: LineKernel, k: usize, scratch: &mut [i32])
    requires { IterationAsked kernel n k scratch.old }
    ensures { Iterated kernel n (line_at 0 scratch.old) (k + 1) scratch.new }
{
    let settings = MeanSettings {
        n,
        blur_length: kernel.blur_length,
        reciprocal: reciprocal_of(kernel.blur_length, k),
        border: kernel.border,
    };
    settings.line_mean(scratch);
    line_step(scratch, n, kernel.q);
}

// The line's last estimate into the second part.
pub fn restore_line(data: &[u8], places: LinePlaces, kernel: LineKernel, scratch: &mut [i32])
    requires asked { LineAsked (length «data».now) places.start places.step places.len (length scratch.old) }
    requires taken { KernelAsked kernel }
    ensures { LineRestored «data».now places.start places.step places.len kernel scratch.new }
{
    gather(data, places, scratch);
    for k in 0..kernel.iterations {
        iterate_line(places.len, kernel, k, scratch);
    }
}
