// A line's last estimate, from the second part of its scratch to the line's places of a destination.
ghost use Rattle.std.specs.Prelude.{◌≡◌, ℤ, pos, length};
ghost use Rattle.numbers.specs.Scalar.{clamp_byte};
ghost use Rattle.deblur.specs.Scatter.{ScatterAsked, Scattered};

use line::kernel::LinePlaces;

// What a destination holds of a line's last estimate.
pub(crate) trait Estimated: Copy {
    // What stands for a place that the destination has not.
    ghost none: { Self };

    ghost of_estimate: { ℤ → Self };

    fn from_estimate(estimate: i32) -> Self
        ensures { result ≡ of_estimate estimate };
}

// Cut to 0..255.
impl Estimated for u8 {
    ghost none = { 0 };

    ghost of_estimate = { clamp_byte };

    fn from_estimate(estimate: i32) -> u8 {
        numbers::clamp_u8(estimate)
    }
}

// As it is.
impl Estimated for i32 {
    ghost none = { pos 0 };

    ghost of_estimate = { λ estimate. estimate };

    fn from_estimate(estimate: i32) -> i32 {
        estimate
    }
}

pub(crate) fn scatter<E: Estimated>(scratch: &[i32], dst: &mut [E], places: LinePlaces)
    requires { ScatterAsked (length dst.old) places.start places.step places.len (length scratch.now) }
    ensures { Scattered E.none E.of_estimate places.len scratch.now places.start places.step dst.old dst.new }
{
    for i in 0..places.len {
        dst[places.start + i * places.step] = E::from_estimate(scratch[places.len + i]);
    }
}
