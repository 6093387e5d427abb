// All lines of a direction of an accepted picture, for callers that have a direction: the calls along an angle, and the
// whole job.
ghost use Rattle.std.specs.Prelude.{◌≡◌, T, length, ◌*◌, ◌≤◌};
ghost use Rattle.floats.specs.Factor.{within};
ghost use Rattle.image.specs.Refusal.{max_side, Laid};
ghost use Rattle.image.specs.View.{seen};
ghost use Rattle.deblur.specs.Calls.{FilterWrites, EstimateWrites};
ghost use Rattle.deblur.specs.Lines.{row_stride, AlongAsked};
ghost use Rattle.deblur.specs.Refusal.{scratch_needed};
ghost use Rattle.deblur.specs.Settings.{line_kernel};

use crate::lines::write_lines;
use image::Gray8View;
use line::kernel::LineKernel;
use raster::border::LineBorderMode;
use raster::direction::RasterDirection4;

// How many i32 a line filter asks as scratch: three parts of the longest line.
pub fn scratch_needed(width: usize, height: usize) -> usize
    requires { (width ≤ max_side) × (height ≤ max_side) }
    ensures { result ≡ scratch_needed width height }
{
    3 * width.max(height)
}

// The kernel of a factor that is taken.
pub fn line_kernel(
    blur_length: usize,
    factor: f64,
    iterations: usize,
    border: LineBorderMode,
) -> LineKernel
    requires { T (within 255 factor) }
    ensures { result ≡ line_kernel blur_length factor iterations border }
{
    LineKernel {
        blur_length,
        q: floats::round_q16(factor),
        iterations,
        border,
    }
}

// A picture of one row has any stride from its width on, which no step may be made of.
fn row_stride(width: usize, height: usize, stride: usize) -> usize
    ensures { result ≡ row_stride width height stride }
{
    if height == 1 { width } else { stride }
}

// The last estimates cut to 0..255, to the destination's pixels: bytes and stride, since its sides are the source's.
pub fn restore_along<'a>(
    src: Gray8View<'a>,
    dst: &mut [u8],
    dst_stride: usize,
    direction: RasterDirection4,
    kernel: LineKernel,
    scratch: &mut [i32],
)
    requires asked { AlongAsked (length src.«data».now) src.width src.height src.stride kernel
        (length scratch.old) }
    requires laid_dst { Laid (length dst.old) src.width src.height dst_stride }
    ensures { FilterWrites (seen src.entry) dst_stride kernel direction dst.old dst.new }
{
    let rows = Gray8View {
        stride: row_stride(src.width, src.height, src.stride),
        ..src
    };
    let dst_stride = row_stride(src.width, src.height, dst_stride);
    write_lines(rows, dst, dst_stride, direction, kernel, scratch)
}

// The last estimates as they are, to the destination's first width * height places, row by row.
pub fn estimates_along<'a>(
    src: Gray8View<'a>,
    dst: &mut [i32],
    direction: RasterDirection4,
    kernel: LineKernel,
    scratch: &mut [i32],
)
    requires asked { AlongAsked (length src.«data».now) src.width src.height src.stride kernel
        (length scratch.old) }
    requires room { src.width * src.height ≤ length dst.old }
    ensures { EstimateWrites (seen src.entry) kernel direction dst.old dst.new }
{
    let rows = Gray8View {
        stride: row_stride(src.width, src.height, src.stride),
        ..src
    };
    write_lines(rows, dst, src.width, direction, kernel, scratch)
}
