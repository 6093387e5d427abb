// How long a smear is: document 01, 'Length'.
ghost use Rattle.std.specs.Prelude.{◌≡◌, ◌<◌, ◌≤◌, ◌^◌, IfOk};
ghost use Rattle.image.specs.Call.{Checks};
ghost use Rattle.image.specs.View.{seen};
ghost use Rattle.swings.specs.Line.{step_pixels};
ghost use Rattle.raster.specs.Direction.{from_angle};
ghost use Rattle.raster.specs.Lines.{Sides};
ghost use Rattle.blur.specs.Conditions.{LengthAccepted};
ghost use Rattle.blur.specs.Length.{length_refusal, too_little, scan_plan, defaults, LengthMeasured, SnappedMeasured};

use crate::records::select;
use crate::select::Pass;
use image::{Gray8View, Layout, Refusal};
use raster::direction::RasterDirection4;
use raster::lines::{line_count, place_step};
use swings::Swing;
use swings::kernel::fill;
use swings::scan::ScanPlan;

// How many swings there must be, and by how much a line must change at least for a swing.
#[derive(Clone, Copy, Debug, PartialEq, Eq)]
pub struct LineLengthConfig {
    pub minimum_transitions: usize,
    pub minimum_amplitude: u8,
}

impl LineLengthConfig {
    // The default thresholds.
    pub const MINIMUM_TRANSITIONS: usize = 8;

    pub const MINIMUM_AMPLITUDE: u8 = 24;

    // Nothing can be measured: a threshold is 0, or a side is below 3.
    fn too_little(self, width: usize, height: usize) -> bool
        ensures { result ≡ too_little width height self }
    {
        self.minimum_transitions == 0 || self.minimum_amplitude == 0 || width < 3 || height < 3
    }
}

impl Default for LineLengthConfig {
    ghost is_default = { λ config. config ≡ defaults };

    fn default() -> LineLengthConfig {
        LineLengthConfig {
            minimum_transitions: LineLengthConfig::MINIMUM_TRANSITIONS,
            minimum_amplitude: LineLengthConfig::MINIMUM_AMPLITUDE,
        }
    }
}

// Refusals 1 to 4 of the layout, and 10 for fewer records than pixels.
fn check_length(layout: Layout, lent: usize) -> Result<(), Refusal>
    ensures number { Checks (length_refusal layout.len layout.width layout.height layout.stride lent) result }
    ensures accepted { IfOk result (λ _. LengthAccepted layout.len layout.width layout.height layout.stride lent) }
{
    layout.check()?;
    if lent < layout.width * layout.height {
        return Err(Refusal::LentTooSmall);
    }
    Ok(())
}

// How far apart the places of a line are.
fn step_pixels(direction: RasterDirection4) -> f64
    ensures { result ≡ step_pixels direction }
{
    match direction {
        RasterDirection4::Horizontal | RasterDirection4::Vertical => 1.0,
        RasterDirection4::DownRight | RasterDirection4::DownLeft => 1.4142135623730951,
    }
}

// What is to be scanned: all lines of the direction.
fn scan_plan<'a>(src: Gray8View<'a>, direction: RasterDirection4, minimum_amplitude: u8) -> ScanPlan
    requires { Sides src.width src.height × (1 ≤ src.stride) × (src.stride < 2 ^ 63) }
    ensures { result ≡ scan_plan src.entry.width src.entry.height src.entry.stride direction minimum_amplitude }
{
    ScanPlan {
        direction,
        count: line_count(direction, src.width, src.height),
        step: place_step(direction, src.stride),
        pixel: step_pixels(direction),
        minimum_amplitude,
    }
}

// The length along a direction, or none to tell.
#[tactic(auto, unfolding(crate::specs::Length::length_decision))]
pub fn estimate_along<'a>(
    src: Gray8View<'a>,
    direction: RasterDirection4,
    config: LineLengthConfig,
    swings: &mut [Swing],
) -> Result<Option<f64>, Refusal>
    ensures { LengthMeasured (seen src.entry) direction config swings.old swings.new result }
{
    check_length(src.layout(), swings.len())?;
    if config.too_little(src.width, src.height) {
        return Ok(None);
    }
    let plan = scan_plan(src, direction, config.minimum_amplitude);
    let scan = fill(src, plan, swings);
    Ok(select(
        &swings[..scan.count],
        Pass::opened(scan),
        config.minimum_transitions,
    ))
}

// The length along the direction nearest to an angle. Refusals 1 to 4 of the layout, 7 for an angle without a
// direction, and 10.
#[tactic(auto, unfolding(crate::specs::Length::length_decision))]
pub fn estimate_line_length_with<'a>(
    src: Gray8View<'a>,
    theta_radians: f64,
    config: LineLengthConfig,
    swings: &mut [Swing],
) -> Result<Option<f64>, Refusal>
    ensures { SnappedMeasured (seen src.entry) (from_angle theta_radians) config swings.old swings.new result }
{
    src.check()?;
    let direction = RasterDirection4::from_angle(theta_radians).ok_or(Refusal::InvalidLine)?;
    estimate_along(src, direction, config, swings)
}

// The same with the default thresholds.
pub fn estimate_line_length<'a>(
    src: Gray8View<'a>,
    theta_radians: f64,
    swings: &mut [Swing],
) -> Result<Option<f64>, Refusal>
    ensures { SnappedMeasured (seen src.entry) (from_angle theta_radians) defaults swings.old swings.new result }
{
    estimate_line_length_with(src, theta_radians, LineLengthConfig::default(), swings)
}
