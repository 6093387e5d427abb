// All lines of a direction, one after the other: each is restored in the front of the scratch and written to its
// places.
ghost use Rattle.std.specs.Prelude.{◌≡◌, ◌^◌, ◌≤◌, ◌<◌, length};
ghost use Rattle.numbers.specs.Written.{Painted};
ghost use Rattle.raster.specs.Lines.{line_count, byte_of};
ghost use Rattle.image.specs.View.{seen};
ghost use Rattle.deblur.specs.Calls.{last_estimate};
ghost use Rattle.deblur.specs.Lines.{places_of, SourceAsked, ScanLineRestored, LinesAsked};

use crate::scatter::{Estimated, scatter};
use image::Gray8View;
use line::kernel::{LineKernel, LinePlaces, restore_line};
use raster::direction::RasterDirection4;
use raster::lines::{ScanLine, line_at, line_count, place_step};

// The line's places in a picture of this stride.
fn places_of(line: ScanLine, direction: RasterDirection4, stride: usize) -> LinePlaces
    requires { (1 ≤ stride) × (stride < 2 ^ 63) × (byte_of stride line.col line.row < 2 ^ 64) }
    ensures { result ≡ places_of line direction stride }
{
    LinePlaces {
        start: line.row * stride + line.col,
        step: place_step(direction, stride),
        len: line.len,
    }
}

// Line k of the direction, restored in the scratch.
fn restore_scan_line<'a>(
    src: Gray8View<'a>,
    direction: RasterDirection4,
    k: usize,
    kernel: LineKernel,
    scratch: &mut [i32],
) -> ScanLine
    requires asked { SourceAsked (length src.«data».now) src.width src.height src.stride kernel
        (length scratch.old) }
    requires below { k < line_count direction src.width src.height }
    ensures { ScanLineRestored src.entry.«data».now src.entry.width src.entry.height src.entry.stride
        direction k kernel scratch.new result }
{
    let line = line_at(direction, src.width, src.height, k);
    restore_line(
        src.data,
        places_of(line, direction, src.stride),
        kernel,
        scratch,
    );
    line
}

// The last estimates to the destination's pixels. No view: of estimates there is none, and its sides are the source's.
pub(crate) fn write_lines<'a, E: Estimated>(
    src: Gray8View<'a>,
    dst: &mut [E],
    dst_stride: usize,
    direction: RasterDirection4,
    kernel: LineKernel,
    scratch: &mut [i32],
)
    requires { LinesAsked (length src.«data».now) src.width src.height src.stride (length dst.old)
        dst_stride kernel (length scratch.old) }
    ensures { Painted E.none (λ c r. E.of_estimate (last_estimate (seen src.entry) kernel direction c r))
        src.entry.width src.entry.height dst_stride dst.old dst.new }
{
    for k in 0..line_count(direction, src.width, src.height) {
        let line = restore_scan_line(src, direction, k, kernel, scratch);
        scatter(scratch, dst, places_of(line, direction, dst_stride));
    }
}
