// The lines of a direction: how many, where each starts, how long it is, and how far apart its places are.
ghost use Rattle.std.specs.Prelude.{◌≡◌, ◌≤◌, ◌<◌, ◌^◌};
ghost use Rattle.raster.specs.Lines.{Sides, line_count, start_col, start_row, length_from, scan_line_at, place_step};

use crate::direction::RasterDirection4;

// A line's first pixel and the number of its pixels.
#[derive(Clone, Copy, Debug, PartialEq, Eq)]
pub struct ScanLine {
    pub col: usize,
    pub row: usize,
    pub len: usize,
}

pub fn line_count(direction: RasterDirection4, width: usize, height: usize) -> usize
    requires { Sides width height }
    ensures { result ≡ line_count direction width height }
{
    match direction {
        RasterDirection4::Horizontal => height,
        RasterDirection4::DownRight => width + (height - 1),
        RasterDirection4::Vertical => width,
        RasterDirection4::DownLeft => width + (height - 1),
    }
}

fn start_col(direction: RasterDirection4, width: usize, k: usize) -> usize
    requires { 1 ≤ width }
    ensures { result ≡ start_col direction width k }
{
    match direction {
        RasterDirection4::Horizontal => 0,
        RasterDirection4::DownRight => if k < width { k } else { 0 },
        RasterDirection4::Vertical => k,
        RasterDirection4::DownLeft => if k < width { k } else { width - 1 },
    }
}

fn start_row(direction: RasterDirection4, width: usize, k: usize) -> usize
    requires { 1 ≤ width }
    ensures { result ≡ start_row direction width k }
{
    match direction {
        RasterDirection4::Horizontal => k,
        RasterDirection4::DownRight => if k < width { 0 } else { k - width + 1 },
        RasterDirection4::Vertical => 0,
        RasterDirection4::DownLeft => if k < width { 0 } else { k - width + 1 },
    }
}

fn length_from(
    direction: RasterDirection4,
    width: usize,
    height: usize,
    col: usize,
    row: usize,
) -> usize
    requires { (col < width) × (row < height) }
    ensures { result ≡ length_from direction width height col row }
{
    match direction {
        RasterDirection4::Horizontal => width - col,
        RasterDirection4::DownRight => (width - col).min(height - row),
        RasterDirection4::Vertical => height - row,
        RasterDirection4::DownLeft => (col + 1).min(height - row),
    }
}

// Line k of the direction.
pub fn line_at(direction: RasterDirection4, width: usize, height: usize, k: usize) -> ScanLine
    requires { Sides width height × (k < line_count direction width height) }
    ensures { result ≡ scan_line_at direction width height k }
{
    let col = start_col(direction, width, k);
    let row = start_row(direction, width, k);
    ScanLine {
        col,
        row,
        len: length_from(direction, width, height, col, row),
    }
}

// How many bytes on the next place of a line is, in a picture of this stride.
pub fn place_step(direction: RasterDirection4, stride: usize) -> usize
    requires { (1 ≤ stride) × (stride < 2 ^ 63) }
    ensures { result ≡ place_step direction stride }
{
    match direction {
        RasterDirection4::Horizontal => 1,
        RasterDirection4::DownRight => stride + 1,
        RasterDirection4::Vertical => stride,
        RasterDirection4::DownLeft => stride - 1,
    }
}
