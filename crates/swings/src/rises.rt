// The rise of one monotonic run of a line (document 01, Length; 001's `rise_of`), operation by operation.
ghost use Rattle.std.specs.Prelude.{◌≡◌, ◌-◌, ◌≤◌, ◌^◌, pos, ◌-ℤ◌, Some};
ghost use Rattle.swings.specs.Rise.{crossed_at, place_at, level_of, crossing_of, rise_of, rise_between};
ghost use Rattle.swings.specs.Samples.{samples_of};

use crate::Swing;
use crate::samples::Samples;

// By how much a line changes from one sample to another.
pub(crate) fn amplitude(va: u8, vb: u8) -> i32
    ensures { result ≡ pos vb -ℤ pos va }
{
    i32::from(vb) - i32::from(va)
}

// The level that lies `part` of the way from va to vb.
#[tactic(auto, unfolding(crate::specs::Rise::level_of))]
fn level_of(va: u8, vb: u8, part: f64) -> f64
    ensures { result ≡ level_of va vb part }
{
    f64::from(va) + part * f64::from(amplitude(va, vb))
}

// Whether the level lies between two samples, in the run's direction.
#[tactic(auto, unfolding(crate::specs::Rise::crossed_at))]
fn crossed(rising: bool, level: f64, v0: f64, v1: f64) -> bool
    ensures { result ≡ crossed_at rising level v0 v1 }
{
    if rising {
        v0 <= level && level <= v1
    } else {
        v1 <= level && level <= v0
    }
}

// Where between sample i, v0, and the next, v1, the level lies. The machine turns an i64 into a double in one step, a
// usize in five.
#[tactic(auto, unfolding(crate::specs::Rise::place_at))]
fn place(i: usize, level: f64, v0: f64, v1: f64) -> f64
    requires { i ≤ 2 ^ 53 }
    ensures { result ≡ place_at i level v0 v1 }
{
    let at = (i as i64) as f64;
    if v1 == v0 {
        at + 0.0
    } else {
        at + (level - v0) / (v1 - v0)
    }
}

// The first crossing of the level among the samples a to b.
#[tactic(auto, using(crate::proofs::Rise::crossing_here, crate::proofs::Rise::crossing_later, crate::proofs::Rise::crossing_none))]
fn crossing<'a>(x: Samples<'a>, a: usize, b: usize, level: f64, rising: bool) -> Option<f64>
    requires { (a ≤ b) × (b ≤ x.last) }
    ensures { result ≡ crossing_of (samples_of x.entry) rising level a (b - a) }
{
    let mut v0 = f64::from(x.at(a));
    for i in a..b {
        let v1 = f64::from(x.at(i + 1));
        if crossed(rising, level, v0, v1) {
            return Some(place(i, level, v0, v1));
        }
        v0 = v1;
    }
    None
}

// The two crossings' distance, if the second lies after the first.
#[tactic(auto, unfolding(crate::specs::Rise::rise_between))]
fn rise_between(p0: f64, p1: f64, swing: u8) -> Option<Swing>
    ensures { result ≡ rise_between (Some p0) (Some p1) swing }
{
    if p1 > p0 {
        Some(Swing {
            width: p1 - p0,
            swing: i32::from(swing),
        })
    } else {
        None
    }
}

// 001's `rise_of` for the run from sample a to sample b.
#[tactic(auto, using(crate::proofs::Rise::swing_is, crate::proofs::Rise::rise_small, crate::proofs::Rise::rise_is), unfolding(crate::specs::Rise::rise_between))]
pub(crate) fn rise_of<'a>(
    x: Samples<'a>,
    a: usize,
    b: usize,
    minimum_amplitude: u8,
) -> Option<Swing>
    requires { (a ≤ b) × (b ≤ x.last) }
    ensures { result ≡ rise_of minimum_amplitude (samples_of x.entry) a b }
{
    let va = x.at(a);
    let vb = x.at(b);
    let swing = va.abs_diff(vb);
    if swing < minimum_amplitude {
        return None;
    }
    let rising = va < vb;
    let low = crossing(x, a, b, level_of(va, vb, 0.2), rising)?;
    let high = crossing(x, a, b, level_of(va, vb, 0.8), rising)?;
    rise_between(low, high, swing)
}
