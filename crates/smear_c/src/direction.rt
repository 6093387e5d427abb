// Direction from an angle and from a picture.
ghost use Rattle.std.specs.Prelude.{◌≡◌};
ghost use Rattle.image.specs.Call.{gray8, Returns};
ghost use Rattle.tensor.specs.Tensor.{direction_decision};
ghost use Rattle.raster.specs.Direction.{from_angle};
ghost use Rattle.smear_c.specs.Direction.{snapped_index, direction_outs};

use crate::number_of;
use image::Gray8View;
use raster::direction::RasterDirection4;
use tensor::direction::estimate_line_direction;

#[unsafe(no_mangle)]
pub extern "C" fn smear_direction_from_angle(angle: f64) -> u8
    ensures { result ≡ snapped_index (from_angle angle) }
{
    match RasterDirection4::from_angle(angle) {
        Some(direction) => direction.index(),
        None => 4,
    }
}

#[unsafe(no_mangle)]
pub extern "C" fn smear_estimate_line_direction(
    src: &[u8],
    width: usize,
    height: usize,
    stride: usize,
    direction: &mut u8,
    a: &mut i64,
    c: &mut i64,
    e: &mut i64,
) -> u8
    ensures { Returns (direction_decision (gray8 src.now width height stride)) direction_outs
        (record { direction = direction.entry.now; a = a.old; c = c.old; e = e.old })
        (record { direction = direction.exit.now; a = a.new; c = c.new; e = e.new })
        result }
{
    let answer = estimate_line_direction(Gray8View::new(src, width, height, stride));
    if let Ok(estimate) = answer {
        *direction = estimate.direction.index();
        *a = estimate.sums.a;
        *c = estimate.sums.c;
        *e = estimate.sums.e;
    }
    number_of(answer)
}
