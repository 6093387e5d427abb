// The scan of a picture's lines for swings (document 01, Length): from a place to the next run that has a rise.
ghost use Rattle.std.specs.Prelude.{◌≡◌, ◌+◌, ◌-◌, ◌*◌, ◌≤◌, ◌<◌, ◌^◌, length};
ghost use Rattle.image.specs.View.{seen};
ghost use Rattle.swings.specs.Line.{sample, ValidPlan};
ghost use Rattle.swings.specs.Swings.{scaled_by, line_swings};
ghost use Rattle.swings.specs.Scan.{remaining_on_line, Open, Opens, FindsNext, raised_to, lesser, greater};
ghost use Rattle.swings.specs.Scan.{widened_by, Scans, begun};
ghost use Rattle.swings.specs.Samples.{samples_of};

use crate::Swing;
use crate::rises::rise_of;
use crate::run::{run_end, steep_from};
use crate::samples::Samples;
use image::Gray8View;
use numbers::clamp_u8;
use raster::direction::RasterDirection4;
use raster::lines::line_at;

// What is scanned of a picture: `count` lines of a direction. The next place of a line stands `step` bytes on, `pixel`
// pixels away.
#[derive(Clone, Copy, Debug, PartialEq)]
pub struct ScanPlan {
    pub direction: RasterDirection4,
    pub count: usize,
    pub step: usize,
    pub pixel: f64,
    pub minimum_amplitude: u8,
}

// A place of the scan: the current line's first byte and number of samples, the sample at which its next run starts,
// and the number of the next line. Before the first line the current one has no samples.
#[derive(Clone, Copy, Debug, PartialEq, Eq)]
pub struct Place {
    pub start: usize,
    pub len: usize,
    pub at: usize,
    pub line: usize,
}

// The least and the greatest of some widths.
#[derive(Clone, Copy, Debug, PartialEq)]
pub struct Span {
    pub least: f64,
    pub greatest: f64,
}

// A scan's state: where it goes on, and of the swings stored so far the strongest, the number and the span of the
// widths.
#[derive(Clone, Copy, Debug, PartialEq)]
pub struct Scan {
    pub place: Place,
    pub strongest: i32,
    pub count: usize,
    pub span: Span,
}

fn scaled(s: Swing, pixel: f64) -> Swing
    ensures { result ≡ scaled_by pixel s }
{
    Swing {
        width: s.width * pixel,
        swing: s.swing,
    }
}

// The next swing of a line, from the run that starts at sample `from` on, and the sample where the next run starts.
#[tactic(auto, using(crate::proofs::LineSwings::swings_past, crate::proofs::LineSwings::swings_level, crate::proofs::LineSwings::swings_found))]
fn next_on_line<'a>(
    x: Samples<'a>,
    from: usize,
    pixel: f64,
    minimum_amplitude: u8,
) -> Option<(Swing, usize)>
    requires { 2 ≤ x.last }
    ensures { line_swings minimum_amplitude pixel (samples_of x.entry) (x.entry.last + 1) from
        ≡ remaining_on_line minimum_amplitude pixel (samples_of x.entry) (x.entry.last + 1) result }
{
    let mut a = from;
    // A while: it goes from run to run.
    while a < x.last {
        let b = run_end(x, a)?;
        if let Some(s) = rise_of(x, a, b, minimum_amplitude) {
            return Some((scaled(s, pixel), b));
        }
        a = steep_from(x, b, minimum_amplitude);
    }
    None
}

// Not `f64::min` and `f64::max`, which answer otherwise at a NaN: these are a comparison and a move each.
fn narrower(a: f64, b: f64) -> f64
    ensures { result ≡ lesser a b }
{
    if b < a { b } else { a }
}

fn wider(a: f64, b: f64) -> f64
    ensures { result ≡ greater a b }
{
    if a < b { b } else { a }
}

impl Span {
    // One width more.
    fn widened(self, width: f64) -> Span
        ensures { result ≡ widened_by self width }
    {
        Span {
            least: narrower(self.least, width),
            greatest: wider(self.greatest, width),
        }
    }
}

// The least swing worth storing: one below half of the strongest so far would not stay.
#[tactic(auto, unfolding(crate::specs::Scan::half_of))]
fn raised(least: u8, strongest: i32) -> u8
    ensures { result ≡ raised_to least strongest }
{
    let top = clamp_u8(strongest);
    let half = top - top / 2;
    least.max(half)
}

// The state before the first line. Any span above 0 would do here; the first width replaces both ends of this one.
pub(crate) fn begin() -> Scan
    ensures { result ≡ begun }
{
    Scan {
        place: Place {
            start: 0,
            len: 0,
            at: 0,
            line: 0,
        },
        strongest: 0,
        count: 0,
        span: Span {
            least: 2048.0,
            greatest: 0.5,
        },
    }
}

// What a scan goes over: the lines of a picture that a plan names.
#[derive(Clone, Copy)]
pub(crate) struct Scanner<'a> {
    pub(crate) src: Gray8View<'a>,
    pub(crate) plan: ScanPlan,
    ghost valid: { ValidPlan (seen src) plan },
}

impl<'a> Scanner<'a> {
    // The next swing of the current line. One of fewer than three samples has none.
    #[tactic(auto, using(crate::proofs::LineSwings::swings_short))]
    fn next_here(self, place: Place, least: u8) -> Option<(Swing, usize)>
        requires { (place.len ≤ 2 ^ 53)
            × (place.start + (place.len - 1) * self.plan.step < length self.src.«data».now) }
        ensures { line_swings least self.entry.plan.pixel
            (sample self.entry.src.«data».now place.start self.entry.plan.step) place.len place.at
            ≡ remaining_on_line least self.entry.plan.pixel
            (sample self.entry.src.«data».now place.start self.entry.plan.step) place.len result }
    {
        if place.len < 3 {
            return None;
        }
        let x = Samples {
            bytes: self.src.data,
            start: place.start,
            step: self.plan.step,
            last: place.len - 1,
        };
        next_on_line(x, place.at, self.plan.pixel, least)
    }

    // Where line `line` of the plan starts; none after the last one.
    fn next_line(self, line: usize) -> Option<Place>
        ensures { Opens (seen self.entry.src) self.entry.plan line result }
    {
        if self.plan.count <= line {
            return None;
        }
        let first = line_at(self.plan.direction, self.src.width, self.src.height, line);
        Some(Place {
            start: first.row * self.src.stride + first.col,
            len: first.len,
            at: 0,
            line: line + 1,
        })
    }

    // The next swing of the plan's lines, from a place on, and the place after it.
    fn next_swing(self, from: Place, least: u8) -> Option<(Swing, Place)>
        requires { Open (seen self.src) self.plan from }
        ensures { FindsNext (seen self.entry.src) self.entry.plan least from result }
    {
        let mut place = from;
        loop {
            if let Some((swing, at)) = self.next_here(place, least) {
                return Some((swing, Place { at, ..place }));
            }
            place = self.next_line(place.line)?;
        }
    }

    // The next swing to store, and the state after it.
    pub(crate) fn next(self, s: Scan) -> Option<(Swing, Scan)>
        requires { (s.count < 2 ^ 63) × Open (seen self.src) self.plan s.place }
        ensures { Scans (seen self.entry.src) self.entry.plan s result }
    {
        let least = raised(self.plan.minimum_amplitude, s.strongest);
        let (swing, place) = self.next_swing(s.place, least)?;
        Some((
            swing,
            Scan {
                place,
                strongest: s.strongest.max(swing.swing),
                count: s.count + 1,
                span: s.span.widened(swing.width),
            },
        ))
    }
}
