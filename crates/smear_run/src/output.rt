// What the program prints for a record, in the front of a slice.
ghost use Rattle.std.specs.Prelude.{◌+◌, ◌≤◌, ◌<◌, length};
ghost use Rattle.smear_run.specs.Stage.{stage};
ghost use Rattle.smear_run.specs.Output.{printed, job_output};
ghost use Rattle.smear_run.specs.Parts.{Legible, SmallJob, Put};

use crate::MOST_PIXELS;
use crate::filters::filter;
use crate::text::{put_refusal, put_too_large};
use image::Refusal;
use record::Record;

// Where there is room for pixels and record, both go straight to `out`. The result of a job is one that `write` takes.
fn run_whole(record: Record, picture: &[u8], n: usize, out: &mut [u8]) -> Result<usize, Refusal>
    requires { SmallJob «record» n × (n + 32 ≤ length out.old) }
    ensures { Put (printed «record» (stage «record» picture.now))
        out.old out.new result }
{
    match filter(record, picture, &mut out[..n]) {
        Ok(result) => {
            let end = n + 32;
            record::write(result, &mut out[n..end])?;
            Ok(end)
        }
        Err(refusal) => put_refusal(refusal, out),
    }
}

// Where there is none, a refusal's text may still have room. On the stack: 4,096 bytes, of pixels that are not printed.
fn run_short(record: Record, picture: &[u8], n: usize, out: &mut [u8]) -> Result<usize, Refusal>
    requires { SmallJob «record» n × (length out.old < n + 32) }
    ensures { Put (printed «record» (stage «record» picture.now))
        out.old out.new result }
{
    let mut pixels = [0u8; MOST_PIXELS];
    match filter(record, picture, &mut pixels[..n]) {
        Ok(_) => Err(Refusal::LentTooSmall),
        Err(refusal) => put_refusal(refusal, out),
    }
}

// What is printed for a record that was read.
pub(crate) fn run_record(record: Record, picture: &[u8], out: &mut [u8]) -> Result<usize, Refusal>
    requires { Legible «record» }
    ensures { Put (job_output «record» picture.now) out.old out.new result }
{
    if !record::is_job(record) {
        return put_refusal(Refusal::InvalidRecord, out);
    }
    let n = record.width as usize * record.height as usize;
    if n > MOST_PIXELS {
        return put_too_large(out);
    }
    if out.len() < n + 32 {
        return run_short(record, picture, n, out);
    }
    run_whole(record, picture, n, out)
}
