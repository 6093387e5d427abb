// The width at place count / 2 in ascending order, without sorting: radix selection over the widths' bit patterns,
// digits of 13 bits, the top digit first. A pass over the list counts the digits of the keys that are still in
// question; the digit is chosen where the running sum of the counts goes past the wanted place. A pass goes over no
// record where the least and the greatest width share its digit and those above: there every count would wait for the
// one before.
ghost use Rattle.std.specs.Prelude.{◌≡◌, not, ◌^◌, ◌<◌, T};
ghost use Rattle.std.specs.Float.{binary64};
ghost use Rattle.std.specs.Float.Ieee.{is_nan, nan_bits};
ghost use Rattle.blur.specs.Median.{stays};
ghost use Rattle.blur.specs.Select.{pick_from, wanted, kept_of, prefix_of, reach_of, started, answered, TallyAsked};
ghost use Rattle.blur.specs.Select.{Tallied, NarrowAsked, Narrows};

use swings::Swing;
use swings::scan::Scan;

// A pass over the first `reach` of `total` records, with `left` digits to find: `count` records were counted so far, of
// those that stay and have the digits `prefix` above the digit at `shift`. Of the keys with that prefix the one at
// `place` is wanted; `kept` swings stay in all, and 0 before they are counted. All keys lie from `low` to `high`.
// That `shift` is below 64 is asked in contracts: a ghost field would have to be shown again at each new state.
#[derive(Clone, Copy, Debug, PartialEq, Eq)]
pub struct Pass {
    pub left: u32,
    pub total: usize,
    pub reach: usize,
    pub low: u64,
    pub high: u64,
    pub strongest: i32,
    pub prefix: u64,
    pub shift: u32,
    pub place: u32,
    pub kept: u32,
    pub count: u32,
}

// A digit, and the place among the keys with that digit. No Option: where there is no such digit, no pass reads either
// number, and any two do.
#[derive(Clone, Copy, Debug, PartialEq, Eq)]
pub struct Chosen {
    pub digit: usize,
    pub place: u32,
}

// The digit at which the running sum of the counts goes past the place; 0 and 0 where none does.
pub fn choose(counts: &[u32], place: u32) -> Chosen
    ensures { result ≡ pick_from counts.now 0 place }
{
    let mut left = place;
    for (digit, &count) in counts.iter().enumerate() {
        if left < count {
            return Chosen { digit, place: left };
        }
        left -= count;
    }
    Chosen { digit: 0, place: 0 }
}

// How many records a pass goes over: none where all keys share its digit. The last pass counts what stays, if none did
// before.
fn reach_of(kept: u32, shift: u32, low: u64, high: u64, total: usize) -> usize
    requires { shift < 64 }
    ensures { result ≡ reach_of kept shift low high total }
{
    if kept == 0 && shift != 0 && low >> shift == high >> shift {
        0
    } else {
        total
    }
}

impl Pass {
    // Before the first pass, over the records of a scan.
    pub(crate) fn opened(s: Scan) -> Pass
        requires { T (not (is_nan s.span.least)) × T (not (is_nan s.span.greatest)) }
        ensures { result ≡ started s.strongest s.span s.count }
    {
        let low = f64::to_bits(s.span.least);
        let high = f64::to_bits(s.span.greatest);
        Pass {
            left: 5,
            total: s.count,
            reach: reach_of(0, 52, low, high, s.count),
            low,
            high,
            strongest: s.strongest,
            prefix: 0,
            shift: 52,
            place: 0,
            kept: 0,
            count: 0,
        }
    }

    // Whether a record is of at least half of the strongest swing.
    fn stays(self, s: Swing) -> bool
        ensures { result ≡ stays self.strongest s }
    {
        i64::from(self.strongest) <= 2 * i64::from(s.swing)
    }

    // One record's step in a pass. What is added is 0 for a record that the pass does not count, so that there is no
    // branch to guess.
    pub(crate) fn tally(self, s: Swing, counts: &mut [u32]) -> Pass
        requires { TallyAsked s self counts.old }
        ensures { Tallied s self counts.old counts.new result }
    {
        let high = s.width.to_bits() >> self.shift;
        let one = u32::from(self.stays(s) & (high / 8192 == self.prefix));
        counts[(high % 8192) as usize] += one;
        Pass {
            count: self.count + one,
            ..self
        }
    }

    // The wanted place in ascending order: half of what stays, or among the keys with the prefix.
    fn wanted(self) -> u32
        ensures { result ≡ wanted self }
    {
        if self.kept == 0 {
            self.count / 2
        } else {
            self.place
        }
    }

    fn kept_of(self) -> u32
        ensures { result ≡ kept_of self }
    {
        if self.kept == 0 {
            self.count
        } else {
            self.kept
        }
    }

    // The prefix with the digit that was chosen, or that all keys share where no record was gone over.
    fn prefix_of(self, digit: usize) -> u64
        requires { (digit < 8192) × (self.prefix < 2 ^ 51) × (self.shift < 64) }
        ensures { result ≡ prefix_of self digit }
    {
        if self.reach == 0 {
            self.low >> self.shift
        } else {
            self.prefix * 8192 + digit as u64
        }
    }

    // After a pass: its digit joins the prefix, and the counts are 0 again for the next pass.
    pub(crate) fn narrow(self, counts: &mut [u32]) -> Pass
        requires { NarrowAsked self counts.old }
        ensures { Narrows self counts.old counts.new result }
    {
        let chosen = choose(counts, self.wanted());
        counts.fill(0);
        let kept = self.kept_of();
        let shift = self.shift.saturating_sub(13);
        Pass {
            left: self.left - 1,
            reach: reach_of(kept, shift, self.low, self.high, self.total),
            prefix: self.prefix_of(chosen.digit),
            shift,
            place: chosen.place,
            kept,
            count: 0,
            ..self
        }
    }

    // After the last pass: the prefix is the median's bit pattern.
    pub(crate) fn answer(self, minimum: usize) -> Option<f64>
        requires { 0 < self.kept → T (not (nan_bits binary64 self.prefix)) }
        ensures { result ≡ answered self minimum }
    {
        if self.kept == 0 || (self.kept as usize) < minimum {
            return None;
        }
        Some(f64::from_bits(self.prefix) / 0.6)
    }
}
