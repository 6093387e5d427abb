// One step of a line's estimate.
ghost use Rattle.std.specs.Prelude.{◌≡◌};
ghost use Rattle.line.specs.Iteration.{step_from};
ghost use Rattle.line.specs.Kernel.{SampleStepAsked, StepAsked, LineStepped};

const SCALE: i64 = floats::SCALE as i64;

// One sample's step, with the residual times q cut toward zero.
fn step_from(y: i32, observed: i32, mean: i32, q: u32) -> i32
    requires { SampleStepAsked y observed mean q }
    ensures { result ≡ step_from q observed mean y }
{
    if q == floats::SCALE {
        return y + (observed - mean);
    }
    let residual = i64::from(observed) - i64::from(mean);
    (i64::from(y) + residual * q as i64 / SCALE) as i32
}

// One step of the estimate, whose mean is in the third part. One slice and the length of its parts, here and in the
// mean: three slices would be two parameters more.
pub(crate) fn line_step(scratch: &mut [i32], n: usize, q: u32)
    requires { StepAsked n q scratch.old }
    ensures { LineStepped n n q scratch.old scratch.new }
{
    for i in 0..n {
        scratch[n + i] = step_from(scratch[n + i], scratch[i], scratch[n + n + i], q);
    }
}
