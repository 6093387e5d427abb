// The program's work on slices: a job's record and a picture in, what is printed out.
#![tactic(auto)]

ghost use Rattle.smear_run.specs.Output.{Ran};

use crate::output::run_record;
use crate::text::put_refusal;
use image::{Gray8View, Refusal};

mod filters;
mod output;
mod text;
mod whole_job;

// The largest picture, in pixels.
pub const MOST_PIXELS: usize = 4096;

// How many bytes are printed at most: the largest picture's pixels and a record.
pub const MOST_PRINTED: usize = MOST_PIXELS + 32;

// How many i32 a line filter asks for at most.
const LINE_SCRATCH: usize = 3 * Gray8View::MAX_SIDE;

// What the program prints for a job's record and a tight picture, in the front of `out`, and how many bytes that is:
// pixels and the result's record, or a text. 10 where `out` is shorter than that, which is at most `MOST_PRINTED`. On
// the stack: what the filter owns (`filters`, `whole_job`), and 4,096 bytes where `out` has no room for pixels and
// record (`output`).
pub fn run(job: &[u8], picture: &[u8], out: &mut [u8]) -> Result<usize, Refusal>
    ensures { Ran job.now picture.now out.old out.new result }
{
    match record::read(job) {
        Ok(record) => run_record(record, picture, out),
        Err(refusal) => put_refusal(refusal, out),
    }
}
