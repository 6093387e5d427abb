// The fold behind the sheet. Its state is public, so that a file can be read part by part.
ghost use Rattle.std.specs.Prelude.{[], ◌≡◌, ◌<◌, ◌≤◌};
ghost use Rattle.summary.specs.Sheet.{is_line, is_binomial, with_mean, lengths_of, tally_of, sheet_of};
ghost use Rattle.summary.specs.File.{max_records, lacks_length, parts};
ghost use Rattle.summary.specs.Tally.{added_length, added, added_part, added_parts};
ghost use Rattle.summary.specs.Tally.{HeldLengths, Held};

use crate::{DirectionSummary, FaultyRecord, RecordSummary};
use raster::direction::RasterDirection4;
use record::{Record, RecordFilter};

// The blur lengths along a direction.
#[derive(Clone, Copy, Debug, PartialEq, Eq)]
pub struct Lengths {
    pub count: u64,
    pub total: u64,
    pub largest: u64,
}

// What a sheet is made of, after `records` of them.
#[derive(Clone, Copy, Debug, PartialEq, Eq)]
pub struct Tally {
    pub records: usize,
    // By the direction's number.
    pub lengths: [Lengths; 4],
    pub binomials: u64,
}

// Whether the record is a restoration's or a line unsharp's.
fn is_line(record: Record) -> bool
    ensures { result ≡ is_line «record» }
{
    !matches!(record.filter, RecordFilter::Binomial)
}

// A record of a line filter that has no length reads, and is a fault on a sheet.
fn lacks_length(record: Record) -> bool
    ensures { result ≡ lacks_length «record» }
{
    is_line(record) && record.blur_length == 0
}

fn is_binomial(record: Record) -> bool
    ensures { result ≡ is_binomial «record» }
{
    matches!(record.filter, RecordFilter::Binomial)
}

impl Lengths {
    fn none() -> Lengths
        ensures { result ≡ lengths_of [] }
    {
        Lengths {
            count: 0,
            total: 0,
            largest: 0,
        }
    }

    fn added(self, blur_length: u16) -> Lengths
        requires { HeldLengths max_records self }
        ensures { result ≡ added_length blur_length self }
    {
        Lengths {
            count: self.count + 1,
            total: self.total + u64::from(blur_length),
            largest: self.largest.max(u64::from(blur_length)),
        }
    }

    fn with_mean(self) -> DirectionSummary
        ensures { result ≡ with_mean self }
    {
        let (mean, remainder) = if self.count == 0 {
            (0, 0)
        } else {
            (self.total / self.count, self.total % self.count)
        };
        DirectionSummary {
            count: self.count,
            total: self.total,
            largest: self.largest,
            mean,
            remainder,
        }
    }
}

impl Tally {
    // A file's records have indices below this.
    pub const MAX_RECORDS: usize = 1_000_000;

    pub fn empty() -> Tally
        ensures { result ≡ tally_of [] }
    {
        Tally {
            records: 0,
            lengths: [Lengths::none(); 4],
            binomials: 0,
        }
    }

    fn added(self, record: Record) -> Tally
        requires { Held self × (self.records < max_records) }
        ensures { result ≡ added self «record» }
    {
        let mut tally = self;
        tally.records += 1;
        if is_line(record) {
            let n = record.blur_length;
            // By name: for a computed index the whole tally goes through memory at each record.
            match record.direction {
                RasterDirection4::Horizontal => tally.lengths[0] = tally.lengths[0].added(n),
                RasterDirection4::DownRight => tally.lengths[1] = tally.lengths[1].added(n),
                RasterDirection4::Vertical => tally.lengths[2] = tally.lengths[2].added(n),
                RasterDirection4::DownLeft => tally.lengths[3] = tally.lengths[3].added(n),
            }
        }
        if is_binomial(record) {
            tally.binomials += 1;
        }
        tally
    }

    // With one more part of a file: a record, if it is one.
    fn add(self, part: &[u8]) -> Result<Tally, FaultyRecord>
        requires { Held self }
        ensures { result ≡ added_part self part.now }
    {
        let fault = FaultyRecord {
            index: self.records,
        };
        if Tally::MAX_RECORDS <= self.records {
            return Err(fault);
        }
        let Ok(record) = record::read(part) else {
            return Err(fault);
        };
        if lacks_length(record) {
            return Err(fault);
        }
        Ok(self.added(record))
    }

    // With the records of a file's next bytes, back to back.
    pub fn add_all(self, records: &[u8]) -> Result<Tally, FaultyRecord>
        requires { Held self }
        ensures { result ≡ added_parts self (parts records.now) }
    {
        let mut tally = self;
        for part in records.chunks(32) {
            tally = tally.add(part)?;
        }
        Ok(tally)
    }

    pub fn sheet(self) -> RecordSummary
        ensures { result ≡ sheet_of self }
    {
        let [horizontal, down_right, vertical, down_left] = self.lengths;
        RecordSummary {
            horizontal: horizontal.with_mean(),
            down_right: down_right.with_mean(),
            vertical: vertical.with_mean(),
            down_left: down_left.with_mean(),
            binomials: self.binomials,
        }
    }
}
