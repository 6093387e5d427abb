// The monotonic runs of a line (document 01, Length): where a run ends, and where the next steep one starts.
ghost use Rattle.std.specs.Prelude.{◌≡◌, cond, ◌*◌, ◌≤◌, ◌<◌, pos, nat_abs, ◌*ℤ◌};
ghost use Rattle.std.specs.Int.Signed.{lt_z};
ghost use Rattle.swings.specs.Runs.{slope_between, turns_at, slope_of, LevelTo, SlopeEnd, RunTo, SteepFrom};
ghost use Rattle.swings.specs.Samples.{samples_of};

use crate::rises::amplitude;
use crate::samples::Samples;

// The last sample of the plateau that starts at sample a.
#[tactic(auto, using(crate::proofs::Runs::level_on))]
fn level_end<'a>(x: Samples<'a>, a: usize) -> usize
    requires { a ≤ x.last }
    ensures { LevelTo (samples_of x.entry) x.entry.last a result }
{
    let v = x.at(a);
    for i in a..x.last {
        if x.at(i + 1) != v {
            return i;
        }
    }
    x.last
}

// Whether a run that rises, or falls, ends before the step from v to w.
fn turns(rising: bool, v: u8, w: u8) -> bool
    ensures { result ≡ turns_at (slope_of rising) (slope_between v w) }
{
    if rising { w < v } else { v < w }
}

// Whether a run of this slope ends before the step from v to w: by a product, so that no branch looks at which way the
// run goes.
#[tactic(auto, using(crate::proofs::Slopes::change_small, crate::proofs::Slopes::turns_product))]
fn opposes(slope: i32, v: u8, w: u8) -> bool
    requires { (nat_abs slope ≤ 255) × (slope ≡ pos 0 → ⊥) }
    ensures { result ≡ turns_at (slope_of (lt_z (pos 0) slope)) (slope_between v w) }
{
    slope * amplitude(v, w) < 0
}

// Where a run ends that has this slope at sample `from`.
#[tactic(auto, using(crate::proofs::Runs::slope_on))]
fn slope_end<'a>(x: Samples<'a>, from: usize, slope: i32) -> usize
    requires { (from ≤ x.last) × (nat_abs slope ≤ 255) × (slope ≡ pos 0 → ⊥) }
    ensures { SlopeEnd (samples_of x.entry) x.entry.last from (lt_z (pos 0) slope) result }
{
    let mut v = x.at(from);
    for at in from..x.last {
        let w = x.at(at + 1);
        if opposes(slope, v, w) {
            return at;
        }
        v = w;
    }
    x.last
}

// Where the run that starts at sample a ends; a line that does not change any more has none. Branches are guessed well
// here, since such runs are long or alike.
pub(crate) fn run_end<'a>(x: Samples<'a>, a: usize) -> Option<usize>
    requires { a < x.last }
    ensures { RunTo (samples_of x.entry) x.entry.last a result }
{
    let i = level_end(x, a);
    if x.last <= i {
        return None;
    }
    let slope = amplitude(x.at(i), x.at(i + 1));
    Some(slope_end(x, i + 1, slope))
}

// The new value after a turn, else the old one. Each part of a run's state is chosen by itself: a struct of them would
// be branched over.
fn choose<T: Copy>(turned: bool, new: T, old: T) -> T
    ensures { result ≡ cond turned new old }
{
    if turned { new } else { old }
}

// Where the next run starts that changes by at least `least`, from sample b on; else where the last one starts. Small
// runs, such as noise, are passed with no branch to guess.
pub(crate) fn steep_from<'a>(x: Samples<'a>, b: usize, least: u8) -> usize
    requires { b ≤ x.last }
    ensures { SteepFrom (samples_of x.entry) least x.entry.last b result }
{
    let i = level_end(x, b);
    if x.last <= i {
        return b;
    }
    // The current run: its start, its value there, and whether it rises.
    let mut a = b;
    let mut value = x.at(b);
    let mut v = x.at(i + 1);
    let mut rises = x.at(i) < v;
    for at in i + 1..x.last {
        let w = x.at(at + 1);
        let turned = turns(rises, v, w);
        if (least <= value.abs_diff(v)) & turned {
            return a;
        }
        a = choose(turned, at, a);
        value = choose(turned, v, value);
        rises = choose(turned, !rises, rises);
        v = w;
    }
    a
}
