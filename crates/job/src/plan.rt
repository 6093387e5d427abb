// What a job comes to: its refusals, the direction of its picture, and the length that an estimate gives.
ghost use Rattle.std.specs.Prelude.{◌≡◌, IfOk};
ghost use Rattle.floats.specs.Odd.{odd_length};
ghost use Rattle.image.specs.Call.{Checks, told};
ghost use Rattle.image.specs.View.{seen};
ghost use Rattle.raster.specs.Lines.{Sides};
ghost use Rattle.deblur.specs.Refusal.{LengthTaken};
ghost use Rattle.job.specs.Job.{job_of, job_refusal, plan_odd, plan_length, JobAccepted};
ghost use Rattle.job.specs.Parts.{start_decision};

use crate::{JobConfig, JobResult};
use deblur::kernel::scratch_needed;
use deblur::refusal::check_iterated;
use image::{Gray8View, Layout, Refusal};
use raster::direction::RasterDirection4;
use tensor::direction::estimate_confident_direction;

// Refusals 1 to 6 and 8 to 10.
#[tactic(auto, unfolding(crate::specs::Job::job_refusal))]
fn check_job<'a>(
    src: Gray8View<'a>,
    dst: Layout,
    config: JobConfig,
    scratch_len: usize,
    swings_len: usize,
) -> Result<(), Refusal>
    ensures number { Checks (job_refusal (job_of (seen src.entry) dst config scratch_len swings_len)) result }
    ensures accepted { IfOk result (λ _. JobAccepted (job_of (seen src.entry) dst config scratch_len swings_len)) }
{
    src.layout().check_pair(dst)?;
    check_iterated(config.relaxation, config.iterations)?;
    if scratch_len < scratch_needed(src.width, src.height) || swings_len < src.width * src.height {
        return Err(Refusal::LentTooSmall);
    }
    Ok(())
}

// Refusals 1 to 10 and 17, or the direction to measure along.
#[tactic(auto, unfolding(crate::specs::Job::start_refusal))]
pub(crate) fn start_job<'a>(
    src: Gray8View<'a>,
    dst: Layout,
    config: JobConfig,
    scratch_len: usize,
    swings_len: usize,
) -> Result<RasterDirection4, Refusal>
    ensures decided { told result ≡ start_decision (job_of (seen src.entry) dst config scratch_len swings_len) }
    ensures accepted { IfOk result (λ _. JobAccepted (job_of (seen src.entry) dst config scratch_len swings_len)) }
{
    check_job(src, dst, config, scratch_len, swings_len)?;
    let estimate = estimate_confident_direction(src, config.minimum_confidence)?;
    Ok(estimate.direction)
}

// What a job with this estimate runs with, or refusal 12.
fn plan_estimate(
    width: usize,
    height: usize,
    direction: RasterDirection4,
    estimate: f64,
) -> Result<JobResult, Refusal>
    requires { Sides width height }
    ensures { told result ≡ plan_odd width height direction estimate (odd_length estimate) }
{
    let length = floats::odd_length(estimate).ok_or(Refusal::LengthTooLarge)?;
    if length > (2 * width.max(height) + 1) as u64 {
        return Err(Refusal::LengthTooLarge);
    }
    Ok(JobResult {
        direction,
        blur_length: length as usize,
        estimate,
    })
}

// What a job with this length runs with, or refusal 11 or 12.
pub(crate) fn plan_job(
    width: usize,
    height: usize,
    direction: RasterDirection4,
    measured: Option<f64>,
) -> Result<JobResult, Refusal>
    requires { Sides width height }
    ensures { told result ≡ plan_length width height direction measured }
{
    let estimate = measured.ok_or(Refusal::NoLength)?;
    plan_estimate(width, height, direction, estimate)
}
