// The loop that stores what the scan finds.
ghost use Rattle.std.specs.Prelude.{◌≤◌, length};
ghost use Rattle.image.specs.View.{seen};
ghost use Rattle.swings.specs.Line.{ValidPlan};
ghost use Rattle.swings.specs.Scan.{rest, begun, Bytes, Filled};

use crate::Swing;
use crate::scan::{Scan, ScanPlan, Scanner, begin};
use image::Gray8View;

// No code: a proof learns here what a view does not say of its bytes.
fn bytes_fit(data: &[u8])
    ensures { Bytes «data».now }
{}

// The scan has one site here: it is then compiled into the loop.
fn store<'a>(lines: Scanner<'a>, swings: &mut [Swing]) -> Scan
    requires { length (rest (seen lines.src) lines.plan begun) ≤ length swings.old }
    ensures { Filled lines.entry.src.«data».now (rest (seen lines.entry.src) lines.entry.plan begun) swings.new result }
{
    let mut scan = begin();
    while let Some((swing, onward)) = lines.next(scan) {
        swings[scan.count] = swing;
        scan = onward;
    }
    bytes_fit(lines.src.data);
    scan
}

// Writes the swings of the plan's lines.
pub fn fill<'a>(src: Gray8View<'a>, plan: ScanPlan, swings: &mut [Swing]) -> Scan
    requires valid { ValidPlan (seen src) plan }
    requires enough { length (rest (seen src) plan begun) ≤ length swings.old }
    ensures { Filled src.entry.«data».now (rest (seen src.entry) plan begun) swings.new result }
{
    store(Scanner { src, plan }, swings)
}
