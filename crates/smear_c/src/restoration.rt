// Restoration and line unsharp for C.
ghost use Rattle.std.specs.Prelude.{◌≡◌};
ghost use Rattle.image.specs.Call.{gray8};
ghost use Rattle.deblur.specs.Settings.{restoration_of, unsharp_of};
ghost use Rattle.smear_c.specs.Restoration.{restoration_config, unsharp_config, FilteredC};
ghost use Rattle.smear_c.specs.Restoration.{EstimateWrittenC};

use crate::number_of;
use deblur::{DirectionalUnsharpConfig, VanCittertConfig};
use image::{Gray8View, Gray8ViewMut};
use raster::border::LineBorderMode;

fn restoration_config(
    angle: f64,
    blur_length: usize,
    iterations: usize,
    relaxation: f64,
    border: u8,
    value: u8,
) -> VanCittertConfig
    ensures { result ≡ restoration_config angle blur_length iterations relaxation border value }
{
    VanCittertConfig {
        theta_radians: angle,
        blur_length,
        iterations,
        relaxation,
        border: LineBorderMode::from_code(border, value),
    }
}

#[unsafe(no_mangle)]
pub extern "C" fn smear_van_cittert_line(
    src: &[u8],
    width: usize,
    height: usize,
    stride: usize,
    dst: &mut [u8],
    dst_width: usize,
    dst_height: usize,
    dst_stride: usize,
    angle: f64,
    blur_length: usize,
    iterations: usize,
    relaxation: f64,
    border: u8,
    border_value: u8,
    scratch: &mut [i32],
    direction: &mut u8,
) -> u8
    ensures { FilteredC (gray8 src.now width height stride)
        (gray8 dst.old dst_width dst_height dst_stride)
        dst.new (restoration_of
        (restoration_config angle blur_length iterations relaxation border border_value))
        scratch.old scratch.new direction.old direction.new result }
{
    let from = Gray8View::new(src, width, height, stride);
    let to = Gray8ViewMut::new(dst, dst_width, dst_height, dst_stride);
    let config = restoration_config(
        angle,
        blur_length,
        iterations,
        relaxation,
        border,
        border_value,
    );
    let answer = deblur::van_cittert_line_into(from, to, config, scratch);
    if let Ok(done) = answer {
        *direction = done.raster_direction.index();
    }
    number_of(answer)
}

#[unsafe(no_mangle)]
pub extern "C" fn smear_van_cittert_estimate(
    src: &[u8],
    width: usize,
    height: usize,
    stride: usize,
    dst: &mut [i32],
    angle: f64,
    blur_length: usize,
    iterations: usize,
    relaxation: f64,
    border: u8,
    border_value: u8,
    scratch: &mut [i32],
    direction: &mut u8,
) -> u8
    ensures { EstimateWrittenC (gray8 src.now width height stride)
        dst.old dst.new
        (restoration_of (restoration_config angle blur_length iterations relaxation border border_value))
        scratch.old scratch.new direction.old direction.new result }
{
    let from = Gray8View::new(src, width, height, stride);
    let config = restoration_config(
        angle,
        blur_length,
        iterations,
        relaxation,
        border,
        border_value,
    );
    let answer = deblur::van_cittert_estimate_into(from, dst, config, scratch);
    if let Ok(done) = answer {
        *direction = done.raster_direction.index();
    }
    number_of(answer)
}

#[unsafe(no_mangle)]
pub extern "C" fn smear_directional_unsharp_line(
    src: &[u8],
    width: usize,
    height: usize,
    stride: usize,
    dst: &mut [u8],
    dst_width: usize,
    dst_height: usize,
    dst_stride: usize,
    angle: f64,
    blur_length: usize,
    gain: f64,
    border: u8,
    border_value: u8,
    scratch: &mut [i32],
    direction: &mut u8,
) -> u8
    ensures { FilteredC (gray8 src.now width height stride)
        (gray8 dst.old dst_width dst_height dst_stride)
        dst.new (unsharp_of (unsharp_config angle blur_length gain border border_value))
        scratch.old scratch.new direction.old direction.new result }
{
    let from = Gray8View::new(src, width, height, stride);
    let to = Gray8ViewMut::new(dst, dst_width, dst_height, dst_stride);
    let config = DirectionalUnsharpConfig {
        theta_radians: angle,
        blur_length,
        gain,
        border: LineBorderMode::from_code(border, border_value),
    };
    let answer = deblur::directional_unsharp_line_into(from, to, config, scratch);
    if let Ok(done) = answer {
        *direction = done.raster_direction.index();
    }
    number_of(answer)
}
