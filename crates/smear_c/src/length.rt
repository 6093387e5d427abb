// The length of the line smear.
ghost use Rattle.image.specs.Call.{gray8};
ghost use Rattle.raster.specs.Direction.{from_angle};
ghost use Rattle.smear_c.specs.Length.{LengthMeasuredC};

use crate::number_of;
use blur::length::{LineLengthConfig, estimate_line_length_with};
use image::Gray8View;
use swings::Swing;

#[unsafe(no_mangle)]
pub extern "C" fn smear_estimate_line_length(
    src: &[u8],
    width: usize,
    height: usize,
    stride: usize,
    angle: f64,
    minimum_transitions: usize,
    minimum_amplitude: u8,
    swings: &mut [Swing],
    length: &mut f64,
) -> u8
    ensures { LengthMeasuredC (gray8 src.now width height stride)
        (from_angle angle) minimum_transitions minimum_amplitude
        length.old length.new swings.old swings.new result }
{
    let picture = Gray8View::new(src, width, height, stride);
    let config = LineLengthConfig {
        minimum_transitions,
        minimum_amplitude,
    };
    let answer = estimate_line_length_with(picture, angle, config, swings);
    // 0.0 where there is no length to tell.
    if let Ok(measured) = answer {
        *length = measured.unwrap_or(0.0);
    }
    number_of(answer)
}
