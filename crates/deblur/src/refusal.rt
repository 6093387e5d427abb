// The refusals of the line filters, 7 to 10, in document 01's order.
ghost use Rattle.std.specs.Prelude.{◌≡◌, ◌≤◌, true, IfOk};
ghost use Rattle.floats.specs.Factor.{max_relaxation, within};
ghost use Rattle.image.specs.Call.{Checks, told};
ghost use Rattle.image.specs.Refusal.{max_side};
ghost use Rattle.raster.specs.Direction.{from_angle, angle_refusal};
ghost use Rattle.deblur.specs.Calls.{decided_along};
ghost use Rattle.deblur.specs.Refusal.{blur_length_refusal, factor_refusal, iterations_refusal};
ghost use Rattle.deblur.specs.Refusal.{iterated_refusal, line_refusal, lent_refusal, scratch_short, scratch_needed};
ghost use Rattle.deblur.specs.Refusal.{LengthTaken, IterationsTaken};

use crate::VanCittertConfig;
use crate::kernel::scratch_needed;
use image::Refusal;
use raster::direction::RasterDirection4;

// 7, for the blur length.
fn check_blur_length(width: usize, height: usize, length: usize) -> Result<(), Refusal>
    ensures number { Checks (blur_length_refusal width height length) result }
    ensures taken { IfOk result (λ _. LengthTaken width height length) }
{
    if length < 3 || length % 2 == 0 {
        return Err(Refusal::InvalidLine);
    }
    // Half of the length, since twice a side could wrap.
    if length / 2 > width.max(height) {
        return Err(Refusal::InvalidLine);
    }
    Ok(())
}

// 7, for an angle without a direction, or its direction.
fn direction_of(angle: f64) -> Result<RasterDirection4, Refusal>
    ensures { told result ≡ decided_along (angle_refusal (from_angle angle)) (from_angle angle) }
{
    RasterDirection4::from_angle(angle).ok_or(Refusal::InvalidLine)
}

// 7 of a filter along lines, for the blur length or an angle without a direction, or the lines' direction.
pub(crate) fn line_direction(
    width: usize,
    height: usize,
    length: usize,
    angle: f64,
) -> Result<RasterDirection4, Refusal>
    ensures decided { told result ≡ decided_along (line_refusal width height length angle) (from_angle angle) }
    ensures taken { IfOk result (λ _. LengthTaken width height length) }
{
    check_blur_length(width, height, length)?;
    direction_of(angle)
}

// 8, for a relaxation or a gain.
#[tactic(auto, unfolding(crate::specs::Refusal::factor_refusal))]
pub(crate) fn check_factor(factor: f64, limit: u8) -> Result<(), Refusal>
    ensures number { Checks (factor_refusal limit factor) result }
    ensures taken { IfOk result (λ _. within limit factor ≡ true) }
{
    if !floats::is_within(factor, limit) {
        return Err(Refusal::InvalidStrength);
    }
    Ok(())
}

// 8 or 9, for the iterations.
#[tactic(auto, unfolding(crate::specs::Refusal::iterations_refusal))]
fn check_iterations(iterations: usize) -> Result<(), Refusal>
    ensures number { Checks (iterations_refusal iterations) result }
    ensures taken { IfOk result (λ _. IterationsTaken iterations) }
{
    if iterations == 0 {
        return Err(Refusal::InvalidStrength);
    }
    if iterations > VanCittertConfig::MAX_ITERATIONS {
        return Err(Refusal::TooManyIterations);
    }
    Ok(())
}

// 8 and 9 of an iterated restoration.
pub fn check_iterated(relaxation: f64, iterations: usize) -> Result<(), Refusal>
    ensures number { Checks (iterated_refusal relaxation iterations) result }
    ensures taken { IfOk result (λ _. (within max_relaxation relaxation ≡ true)
        × IterationsTaken iterations) }
{
    check_factor(relaxation, VanCittertConfig::MAX_RELAXATION)?;
    check_iterations(iterations)
}

// 10, for a scratch of this length.
pub(crate) fn check_scratch(width: usize, height: usize, scratch_len: usize) -> Result<(), Refusal>
    requires { (width ≤ max_side) × (height ≤ max_side) }
    ensures number { Checks (lent_refusal (scratch_short width height scratch_len)) result }
    ensures room { IfOk result (λ _. scratch_needed width height ≤ scratch_len) }
{
    if scratch_len < scratch_needed(width, height) {
        return Err(Refusal::LentTooSmall);
    }
    Ok(())
}
