// The length call with records of its own.
ghost use Rattle.std.specs.Prelude.{◌≡◌};
ghost use Rattle.raster.specs.Direction.{from_angle};
ghost use Rattle.image.specs.Call.{told};
ghost use Rattle.image.specs.View.{seen};
ghost use Rattle.blur.specs.Length.{snapped_decision};

use blur::length::{LineLengthConfig, estimate_line_length_with};
use image::{Gray8View, Refusal};
use swings::Swing;

// The length of a picture of at most 256 pixels. Its contract says nothing of the records.
pub(crate) fn length_at<'a>(
    src: Gray8View<'a>,
    theta_radians: f64,
    config: LineLengthConfig,
) -> Result<Option<f64>, Refusal>
    ensures { told result ≡ snapped_decision (seen src.entry) (from_angle theta_radians) config 256 }
{
    let none = Swing {
        width: 0.0,
        swing: 0,
    };
    let mut swings = [none; 256];
    estimate_line_length_with(src, theta_radians, config, &mut swings)
}
