// The passes of a selection over the records that a scan wrote.
ghost use Rattle.std.specs.Prelude.{◌≡◌};
ghost use Rattle.blur.specs.Median.{length_of};
ghost use Rattle.blur.specs.Select.{PassAsked, Passes, SelectAsked};

use crate::select::Pass;
use swings::Swing;

// One pass over records.
pub(crate) fn pass(swings: &[Swing], first: Pass, counts: &mut [u32]) -> Pass
    requires { PassAsked swings.now first counts.old }
    ensures { Passes swings.now first counts.old counts.new result }
{
    let mut a = first;
    for s in swings {
        a = a.tally(*s, counts);
    }
    a
}

// The length that records give.
pub(crate) fn select(swings: &[Swing], first: Pass, minimum: usize) -> Option<f64>
    requires { SelectAsked swings.now first }
    ensures { result ≡ length_of swings.now minimum }
{
    let mut counts = [0u32; 8192];
    let mut a = first;
    // A while: the state says how many digits are left, and the passes' laws go by that number.
    while a.left > 0 {
        let b = pass(&swings[..a.reach], a, &mut counts);
        a = b.narrow(&mut counts);
    }
    a.answer(minimum)
}
