// The whole job of a record: direction and length from the picture.
ghost use Rattle.std.specs.Prelude.{◌≡◌, ◌*◌, length};
ghost use Rattle.smear_run.specs.Stage.{whole_job};
ghost use Rattle.smear_run.specs.Parts.{Filtered};

use crate::filters::{destination, source, used};
use crate::{LINE_SCRATCH, MOST_PIXELS};
use image::Refusal;
use job::JobConfig;
use record::Record;
use swings::Swing;

// The record with what was measured. On the stack: 3,072 i32, 12,288 bytes, 4,096 swings, 65,536 bytes, and 32,768 of
// `blur`'s counts.
pub(crate) fn whole_job(
    record: Record,
    relaxation: f64,
    picture: &[u8],
    dst: &mut [u8],
) -> Result<Record, Refusal>
    requires { length dst.old ≡ «record».width * «record».height }
    ensures { Filtered (whole_job «record» relaxation picture.now) «record»
        dst.old dst.new result }
{
    let mut scratch = [0i32; LINE_SCRATCH];
    let none = Swing {
        width: 0.0,
        swing: 0,
    };
    let mut swings = [none; MOST_PIXELS];
    let config = JobConfig {
        minimum_confidence: 0,
        iterations: record.iterations as usize,
        relaxation,
        border: record.border,
        ..JobConfig::default()
    };
    let from = source(record, picture);
    let to = destination(record, dst);
    let done = job::restore(from, to, config, &mut scratch, &mut swings)?;
    Ok(used(
        record,
        done.direction,
        done.blur_length as u16,
        done.estimate,
    ))
}
