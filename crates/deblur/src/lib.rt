// Restoration along lines, and line unsharp: the settings, the answers and the calls.
#![tactic(auto)]

ghost use Rattle.std.specs.Prelude.{◌≡◌, ◌≤◌, length, IfOk};
ghost use Rattle.image.specs.Call.{gray8, told};
ghost use Rattle.image.specs.Refusal.{max_side};
ghost use Rattle.image.specs.View.{seen, lent};
ghost use Rattle.raster.specs.Direction.{from_angle};
ghost use Rattle.line.specs.Kernel.{KernelAsked};
ghost use Rattle.deblur.specs.Calls.{plan_of, Filtered, EstimateWritten};
ghost use Rattle.deblur.specs.Settings.{LineFilter, van_cittert_default, unsharp_default, restoration_of, unsharp_of};

use crate::kernel::{estimates_along, line_kernel, restore_along};
use crate::refusal::{check_factor, check_iterated, check_scratch, line_direction};
use image::{Gray8View, Gray8ViewMut, Layout, Refusal};
use line::kernel::LineKernel;
use raster::border::LineBorderMode;
use raster::direction::RasterDirection4;

pub mod kernel;
mod lines;
pub mod refusal;
mod scatter;

// Settings of the iterated restoration.
#[derive(Clone, Copy, Debug, PartialEq)]
pub struct VanCittertConfig {
    // The blur's direction, which is taken to the nearest of the four.
    pub theta_radians: f64,
    // The blur's odd length in pixels.
    pub blur_length: usize,
    // Up to MAX_ITERATIONS.
    pub iterations: usize,
    // In 0..MAX_RELAXATION.
    pub relaxation: f64,
    pub border: LineBorderMode,
}

// Settings of the line unsharp.
#[derive(Clone, Copy, Debug, PartialEq)]
pub struct DirectionalUnsharpConfig {
    // The blur's direction, which is taken to the nearest of the four.
    pub theta_radians: f64,
    // The blur's odd length in pixels.
    pub blur_length: usize,
    // In 0..MAX_GAIN.
    pub gain: f64,
    pub border: LineBorderMode,
}

#[derive(Clone, Copy, Debug, PartialEq, Eq)]
pub struct RestorationMetadata {
    // The direction that the lines took.
    pub raster_direction: RasterDirection4,
}

impl VanCittertConfig {
    pub const MAX_ITERATIONS: usize = LineKernel::MAX_ITERATIONS;

    pub const MAX_RELAXATION: u8 = floats::MAX_RELAXATION;

    pub const DEFAULT_BLUR_LENGTH: usize = 3;

    pub const DEFAULT_ITERATIONS: usize = 3;

    pub const DEFAULT_RELAXATION: f64 = 1.0;

    // The direction that the lines take.
    pub fn raster_direction(self) -> Option<RasterDirection4>
        ensures { result ≡ from_angle self.theta_radians }
    {
        RasterDirection4::from_angle(self.theta_radians)
    }
}

impl Default for VanCittertConfig {
    ghost is_default = { λ config. config ≡ van_cittert_default };

    #[tactic(auto, unfolding(crate::specs::Settings::van_cittert_default))]
    fn default() -> VanCittertConfig {
        VanCittertConfig {
            theta_radians: 0.0,
            blur_length: VanCittertConfig::DEFAULT_BLUR_LENGTH,
            iterations: VanCittertConfig::DEFAULT_ITERATIONS,
            relaxation: VanCittertConfig::DEFAULT_RELAXATION,
            border: LineBorderMode::Replicate,
        }
    }
}

impl DirectionalUnsharpConfig {
    pub const MAX_GAIN: u8 = floats::MAX_GAIN;

    pub const DEFAULT_GAIN: f64 = 1.5;
}

impl Default for DirectionalUnsharpConfig {
    ghost is_default = { λ config. config ≡ unsharp_default };

    #[tactic(auto, unfolding(crate::specs::Settings::unsharp_default))]
    fn default() -> DirectionalUnsharpConfig {
        DirectionalUnsharpConfig {
            theta_radians: 0.0,
            blur_length: VanCittertConfig::DEFAULT_BLUR_LENGTH,
            gain: DirectionalUnsharpConfig::DEFAULT_GAIN,
            border: LineBorderMode::Replicate,
        }
    }
}

// What settings come to: the direction that the lines take, and what is done on each.
#[derive(Clone, Copy, Debug, PartialEq, Eq)]
pub(crate) struct LinePlan {
    pub(crate) direction: RasterDirection4,
    pub(crate) kernel: LineKernel,
}

// Settings of a call along lines.
trait LineSettings: Copy {
    ghost filter: { Self → LineFilter };

    // Refusals 7 to 9 on a picture of these sides, or what the settings come to.
    fn plan(self, width: usize, height: usize) -> Result<LinePlan, Refusal>
        requires { (width ≤ max_side) × (height ≤ max_side) }
        ensures decided { told result ≡ plan_of (filter self) width height }
        ensures taken { IfOk result (λ plan. KernelAsked plan.kernel) };
}

impl LineSettings for VanCittertConfig {
    ghost filter = { restoration_of };

    fn plan(self, width: usize, height: usize) -> Result<LinePlan, Refusal> {
        let direction = line_direction(width, height, self.blur_length, self.theta_radians)?;
        check_iterated(self.relaxation, self.iterations)?;
        let kernel = line_kernel(
            self.blur_length,
            self.relaxation,
            self.iterations,
            self.border,
        );
        Ok(LinePlan { direction, kernel })
    }
}

impl LineSettings for DirectionalUnsharpConfig {
    ghost filter = { unsharp_of };

    fn plan(self, width: usize, height: usize) -> Result<LinePlan, Refusal> {
        let direction = line_direction(width, height, self.blur_length, self.theta_radians)?;
        check_factor(self.gain, DirectionalUnsharpConfig::MAX_GAIN)?;
        let kernel = line_kernel(self.blur_length, self.gain, 1, self.border);
        Ok(LinePlan { direction, kernel })
    }
}

// What the settings say of the source, cut to 0..255, in the destination's pixels.
#[tactic(auto, unfolding(crate::specs::Refusal::filter_refusal))]
fn filter_into<'a, S: LineSettings>(
    src: Gray8View<'a>,
    dst: &mut [u8],
    layout: Layout,
    settings: S,
    scratch: &mut [i32],
) -> Result<RestorationMetadata, Refusal>
    requires { layout.len ≡ length dst.old }
    ensures { Filtered (seen src.entry) (gray8 dst.old layout.width layout.height layout.stride) dst.new
        (S.filter settings) scratch.old scratch.new result }
{
    src.layout().check_pair(layout)?;
    let plan = settings.plan(src.width, src.height)?;
    check_scratch(src.width, src.height, scratch.len())?;
    restore_along(
        src,
        dst,
        layout.stride,
        plan.direction,
        plan.kernel,
        scratch,
    );
    Ok(RestorationMetadata {
        raster_direction: plan.direction,
    })
}

// The source's restoration, cut to 0..255, in the destination's pixels. This call and line unsharp are two names of C.
pub fn van_cittert_line_into<'a, 'b>(
    src: Gray8View<'a>,
    dst: Gray8ViewMut<'b>,
    config: VanCittertConfig,
    scratch: &mut [i32],
) -> Result<RestorationMetadata, Refusal>
    ensures { Filtered (seen src.entry) (lent dst.entry) dst.exit.0.now (restoration_of config) scratch.old
        scratch.new result }
{
    let layout = dst.layout();
    let Gray8ViewMut { data, .. } = dst;
    // The answer by its name: of bytes handed on in a call that ends the function a proof knows nothing.
    let answer = filter_into(src, data, layout, config, scratch);
    answer
}

// The source's restoration as it is, in the destination's first width * height places, which have no layout: so nothing
// of `filter_into` serves it but the plan.
#[tactic(auto, unfolding(crate::specs::Refusal::estimate_refusal))]
pub fn van_cittert_estimate_into<'a>(
    src: Gray8View<'a>,
    dst: &mut [i32],
    config: VanCittertConfig,
    scratch: &mut [i32],
) -> Result<RestorationMetadata, Refusal>
    ensures { EstimateWritten (seen src.entry) dst.old dst.new (restoration_of config) scratch.old
        scratch.new result }
{
    src.check()?;
    let plan = config.plan(src.width, src.height)?;
    if dst.len() < src.width * src.height {
        return Err(Refusal::LentTooSmall);
    }
    check_scratch(src.width, src.height, scratch.len())?;
    estimates_along(src, dst, plan.direction, plan.kernel, scratch);
    Ok(RestorationMetadata {
        raster_direction: plan.direction,
    })
}

// The source's line unsharp, cut to 0..255, in the destination's pixels.
pub fn directional_unsharp_line_into<'a, 'b>(
    src: Gray8View<'a>,
    dst: Gray8ViewMut<'b>,
    config: DirectionalUnsharpConfig,
    scratch: &mut [i32],
) -> Result<RestorationMetadata, Refusal>
    ensures { Filtered (seen src.entry) (lent dst.entry) dst.exit.0.now (unsharp_of config) scratch.old
        scratch.new result }
{
    let layout = dst.layout();
    let Gray8ViewMut { data, .. } = dst;
    // The answer by its name: of bytes handed on in a call that ends the function a proof knows nothing.
    let answer = filter_into(src, data, layout, config, scratch);
    answer
}
