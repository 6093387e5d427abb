// The whole job: direction, length and restoration of one picture.
#![tactic(auto)]

ghost use Rattle.std.specs.Prelude.{◌≡◌};
ghost use Rattle.image.specs.View.{seen, lent};
ghost use Rattle.blur.specs.Length.{thresholds};
ghost use Rattle.job.specs.Job.{job_default, Restored};

use crate::finish::finish;
use crate::plan::{plan_job, start_job};
use blur::length::{LineLengthConfig, estimate_along};
use deblur::VanCittertConfig;
use image::{Gray8View, Gray8ViewMut, Refusal};
use raster::border::LineBorderMode;
use raster::direction::RasterDirection4;
use swings::Swing;

mod finish;
mod plan;

// Settings of the whole job: thresholds of the length and the direction, and those of the restoration that are not
// measured.
#[derive(Clone, Copy, Debug, PartialEq)]
pub struct JobConfig {
    // How many swings there must be.
    pub minimum_transitions: usize,
    // By how much a line must change at least for a swing.
    pub minimum_amplitude: u8,
    // How confident the direction must be, in 256ths: 0 to 256.
    pub minimum_confidence: u16,
    pub iterations: usize,
    // In 0..1.
    pub relaxation: f64,
    pub border: LineBorderMode,
}

// What was measured, and used.
#[derive(Clone, Copy, Debug, PartialEq)]
pub struct JobResult {
    pub direction: RasterDirection4,
    // The odd length in pixels that the estimate was raised to.
    pub blur_length: usize,
    pub estimate: f64,
}

impl Default for JobConfig {
    ghost is_default = { λ config. config ≡ job_default };

    fn default() -> JobConfig {
        JobConfig {
            minimum_transitions: LineLengthConfig::MINIMUM_TRANSITIONS,
            minimum_amplitude: LineLengthConfig::MINIMUM_AMPLITUDE,
            minimum_confidence: 0,
            iterations: VanCittertConfig::DEFAULT_ITERATIONS,
            relaxation: VanCittertConfig::DEFAULT_RELAXATION,
            border: LineBorderMode::Replicate,
        }
    }
}

impl JobConfig {
    // Those of the length.
    fn thresholds(self) -> LineLengthConfig
        ensures { result ≡ thresholds self.minimum_transitions self.minimum_amplitude }
    {
        LineLengthConfig {
            minimum_transitions: self.minimum_transitions,
            minimum_amplitude: self.minimum_amplitude,
        }
    }
}

// The source's restoration along the direction and over the length that were measured in it, cut to 0..255, in the
// destination's pixels. Refusals 1 to 6, 8 to 12 and 17.
pub fn restore<'a, 'b>(
    src: Gray8View<'a>,
    dst: Gray8ViewMut<'b>,
    config: JobConfig,
    scratch: &mut [i32],
    swings: &mut [Swing],
) -> Result<JobResult, Refusal>
    ensures { Restored (seen src.entry) (lent dst.entry) dst.exit.0.now config scratch.old scratch.new swings.old
        swings.new result }
{
    let direction = start_job(src, dst.layout(), config, scratch.len(), swings.len())?;
    let measured = estimate_along(src, direction, config.thresholds(), swings)?;
    let result = plan_job(src.width, src.height, direction, measured)?;
    let Gray8ViewMut { data, stride, .. } = dst;
    finish(src, data, stride, config, result, scratch);
    Ok(result)
}
