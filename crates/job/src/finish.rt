// The end of a job that is accepted: its restoration.
ghost use Rattle.std.specs.Prelude.{length};
ghost use Rattle.image.specs.View.{seen};
ghost use Rattle.deblur.specs.Refusal.{LengthTaken};
ghost use Rattle.job.specs.Job.{layout, JobWrites, Runnable};

use crate::{JobConfig, JobResult};
use deblur::kernel::{line_kernel, restore_along};
use image::Gray8View;

// The last estimates, cut to 0..255, in the destination's pixels. Of it bytes and stride: its sides are the source's.
pub(crate) fn finish<'a>(
    src: Gray8View<'a>,
    dst: &mut [u8],
    dst_stride: usize,
    config: JobConfig,
    plan: JobResult,
    scratch: &mut [i32],
)
    requires runnable { Runnable (seen src) (layout (length dst.old) src.width src.height dst_stride) config
        (length scratch.old) }
    requires taken { LengthTaken src.width src.height plan.blur_length }
    ensures { JobWrites (seen src.entry) dst_stride config plan dst.old dst.new }
{
    let kernel = line_kernel(
        plan.blur_length,
        config.relaxation,
        config.iterations,
        config.border,
    );
    restore_along(src, dst, dst_stride, plan.direction, kernel, scratch);
}
