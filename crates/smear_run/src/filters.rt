// The filters of a record on a tight picture of at most `MOST_PIXELS`. Each owns its scratch.
ghost use Rattle.std.specs.Prelude.{◌≡◌, ◌*◌, length};
ghost use Rattle.deblur.specs.Settings.{restoration_of, unsharp_of};
ghost use Rattle.image.specs.View.{view_of, view_mut_of};
ghost use Rattle.record.specs.Record.{used_in};
ghost use Rattle.smear_run.specs.Stage.{record_restoration, record_unsharp, line_stage, binomial_stage, stage};
ghost use Rattle.smear_run.specs.Parts.{Filtered};

use crate::whole_job::whole_job;
use crate::{LINE_SCRATCH, MOST_PIXELS};
use deblur::{DirectionalUnsharpConfig, VanCittertConfig};
use image::{Gray8View, Gray8ViewMut, Refusal};
use raster::direction::RasterDirection4;
use record::{Record, RecordFilter};

// The record with what was used.
pub(crate) fn used(
    record: Record,
    direction: RasterDirection4,
    blur_length: u16,
    estimate: f64,
) -> Record
    ensures { result ≡ used_in «record» direction blur_length estimate }
{
    Record {
        direction,
        filter: record.filter.used(),
        blur_length,
        estimate,
        ..record
    }
}

// A tight picture of the record's sides.
pub(crate) fn source<'a>(record: Record, picture: &'a [u8]) -> Gray8View<'a>
    ensures { result ≡ view_of picture.entry «record».width «record».height «record».width }
{
    let width = record.width as usize;
    Gray8View::new(picture, width, record.height as usize, width)
}

// The same, to be written.
pub(crate) fn destination<'a>(record: Record, dst: &'a mut [u8]) -> Gray8ViewMut<'a>
    ensures { result ≡ view_mut_of dst.entry «record».width «record».height «record».width }
{
    let width = record.width as usize;
    Gray8ViewMut::new(dst, width, record.height as usize, width)
}

// A line filter's result has the direction that the lines took. On the stack: 3,072 i32, 12,288 bytes.
fn restoration(
    record: Record,
    relaxation: f64,
    picture: &[u8],
    dst: &mut [u8],
) -> Result<Record, Refusal>
    requires { length dst.old ≡ «record».width * «record».height }
    ensures { Filtered (line_stage «record» (restoration_of (record_restoration «record» relaxation))
        picture.now) «record» dst.old dst.new result }
{
    let mut scratch = [0i32; LINE_SCRATCH];
    let config = VanCittertConfig {
        theta_radians: record.angle,
        blur_length: record.blur_length as usize,
        iterations: record.iterations as usize,
        relaxation,
        border: record.border,
    };
    let from = source(record, picture);
    let to = destination(record, dst);
    let done = deblur::van_cittert_line_into(from, to, config, &mut scratch)?;
    Ok(used(
        record,
        done.raster_direction,
        record.blur_length,
        record.estimate,
    ))
}

// The same with a gain, of other settings: a trait over both would be as long. On the stack: 3,072 i32, 12,288 bytes.
fn unsharp(record: Record, gain: f64, picture: &[u8], dst: &mut [u8]) -> Result<Record, Refusal>
    requires { length dst.old ≡ «record».width * «record».height }
    ensures { Filtered (line_stage «record» (unsharp_of (record_unsharp «record» gain)) picture.now)
        «record» dst.old dst.new result }
{
    let mut scratch = [0i32; LINE_SCRATCH];
    let config = DirectionalUnsharpConfig {
        theta_radians: record.angle,
        blur_length: record.blur_length as usize,
        gain,
        border: record.border,
    };
    let from = source(record, picture);
    let to = destination(record, dst);
    let done = deblur::directional_unsharp_line_into(from, to, config, &mut scratch)?;
    Ok(used(
        record,
        done.raster_direction,
        record.blur_length,
        record.estimate,
    ))
}

// The binomial's result is its job. On the stack: 4,096 u16, 8,192 bytes.
fn binomial(record: Record, picture: &[u8], dst: &mut [u8]) -> Result<Record, Refusal>
    requires { length dst.old ≡ «record».width * «record».height }
    ensures { Filtered (binomial_stage «record» picture.now) «record»
        dst.old dst.new result }
{
    let mut scratch = [0u16; MOST_PIXELS];
    let from = source(record, picture);
    let to = destination(record, dst);
    sharpen::fixed_binomial_unsharp_into(from, to, &mut scratch)?;
    Ok(record)
}

// The record's filter.
pub(crate) fn filter(record: Record, picture: &[u8], dst: &mut [u8]) -> Result<Record, Refusal>
    requires { length dst.old ≡ «record».width * «record».height }
    ensures { Filtered (stage «record» picture.now) «record»
        dst.old dst.new result }
{
    match record.filter {
        RecordFilter::WholeJob(relaxation) => whole_job(record, relaxation, picture, dst),
        RecordFilter::Restoration(relaxation) => restoration(record, relaxation, picture, dst),
        RecordFilter::Unsharp(gain) => unsharp(record, gain, picture, dst),
        RecordFilter::Binomial => binomial(record, picture, dst),
    }
}
