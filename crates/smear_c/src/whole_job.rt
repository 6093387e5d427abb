// The whole job for C.
ghost use Rattle.image.specs.Call.{gray8};
ghost use Rattle.smear_c.specs.WholeJob.{job_config, outs, RestoredC};

use crate::number_of;
use image::{Gray8View, Gray8ViewMut};
use job::JobConfig;
use raster::border::LineBorderMode;
use swings::Swing;

#[unsafe(no_mangle)]
pub extern "C" fn smear_restore(
    src: &[u8],
    width: usize,
    height: usize,
    stride: usize,
    dst: &mut [u8],
    dst_width: usize,
    dst_height: usize,
    dst_stride: usize,
    minimum_transitions: usize,
    minimum_amplitude: u8,
    minimum_confidence: u16,
    iterations: usize,
    relaxation: f64,
    border: u8,
    border_value: u8,
    scratch: &mut [i32],
    swings: &mut [Swing],
    direction: &mut u8,
    blur_length: &mut usize,
    estimate: &mut f64,
) -> u8
    ensures { RestoredC (gray8 src.now width height stride)
        (gray8 dst.old dst_width dst_height dst_stride)
        dst.new (job_config minimum_transitions minimum_amplitude minimum_confidence iterations
        relaxation border border_value)
        scratch.old scratch.new swings.old swings.new
        (outs direction.old blur_length.old estimate.old)
        (outs direction.new blur_length.new estimate.new)
        result }
{
    let from = Gray8View::new(src, width, height, stride);
    let to = Gray8ViewMut::new(dst, dst_width, dst_height, dst_stride);
    let config = JobConfig {
        minimum_transitions,
        minimum_amplitude,
        minimum_confidence,
        iterations,
        relaxation,
        border: LineBorderMode::from_code(border, border_value),
    };
    let answer = job::restore(from, to, config, scratch, swings);
    if let Ok(done) = answer {
        *direction = done.direction.index();
        *blur_length = done.blur_length;
        *estimate = done.estimate;
    }
    number_of(answer)
}
