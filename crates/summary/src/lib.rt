// The round sheet of smears: what a file of result records says of each direction (document 02, K1).
#![tactic(auto)]

pub mod kernel;

ghost use Rattle.std.specs.Prelude.{◌≡◌};
ghost use Rattle.image.specs.Call.{number_of_refusal};
ghost use Rattle.summary.specs.File.{summarized, fault_number};

use image::Refusal;
use kernel::Tally;
use std::fmt;

// The blur lengths along a direction; the mean is whole part and remainder over the count. All 0 for none.
#[derive(Clone, Copy, Debug, PartialEq, Eq)]
pub struct DirectionSummary {
    pub count: u64,
    pub total: u64,
    pub largest: u64,
    pub mean: u64,
    pub remainder: u64,
}

// Directions by name: an array of four would say no more, and C has the names.
#[derive(Clone, Copy, Debug, PartialEq, Eq)]
pub struct RecordSummary {
    pub horizontal: DirectionSummary,
    pub down_right: DirectionSummary,
    pub vertical: DirectionSummary,
    pub down_left: DirectionSummary,
    pub binomials: u64,
}

// Five numbers.
impl fmt::Display for DirectionSummary {
    fn fmt<W: fmt::Write>(&self, f: &mut fmt::Formatter<W>) -> fmt::Result {
        write!(
            f,
            "{} {} {} {} {}",
            self.count, self.total, self.largest, self.mean, self.remainder
        )
    }
}

// A line a direction, and the number of binomials.
impl fmt::Display for RecordSummary {
    fn fmt<W: fmt::Write>(&self, f: &mut fmt::Formatter<W>) -> fmt::Result {
        writeln!(f, "{}", self.horizontal)?;
        writeln!(f, "{}", self.down_right)?;
        writeln!(f, "{}", self.vertical)?;
        writeln!(f, "{}", self.down_left)?;
        write!(f, "{}", self.binomials)
    }
}

// The first record of a file that has no place on a sheet.
#[derive(Clone, Copy, Debug, PartialEq, Eq)]
pub struct FaultyRecord {
    // Counted from 0.
    pub index: usize,
}

impl FaultyRecord {
    // The refusal of a file that has a fault.
    pub fn refusal(self) -> Refusal
        ensures { number_of_refusal result ≡ fault_number }
    {
        Refusal::InvalidRecord
    }
}

impl fmt::Display for FaultyRecord {
    fn fmt<W: fmt::Write>(&self, f: &mut fmt::Formatter<W>) -> fmt::Result {
        write!(f, "{} {}", self.refusal(), self.index)
    }
}

// The sheet over records back to back, or the first fault.
pub fn summarize(records: &[u8]) -> Result<RecordSummary, FaultyRecord>
    ensures { result ≡ summarized records.now }
{
    let tally = Tally::empty().add_all(records)?;
    Ok(tally.sheet())
}
