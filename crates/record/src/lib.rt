// The 32-byte record: what a job asks for, and what a result adds.
#![tactic(auto)]

mod bytes;
mod fields;
mod limits;

ghost use Rattle.std.specs.Prelude.{◌≡◌, true};
ghost use Rattle.std.specs.Float.Ieee.Scale.{finite};
ghost use Rattle.image.specs.Call.{told};
ghost use Rattle.record.specs.Fields.{legal};
ghost use Rattle.record.specs.Record.{filter_code, used_filter, filter_from, record_of, read_fields};
ghost use Rattle.record.specs.Record.{is_factor, exact_q, filter_q, fields_of, checked, record_fields};
ghost use Rattle.record.specs.Record.{read_record, Wrote, is_job};

use fields::{Fields, Head, fields_in, put_fields};
use image::Refusal;
use limits::is_legal;
use raster::border::LineBorderMode;
use raster::direction::RasterDirection4;

// A filter with its factor; the binomial has none.
#[derive(Clone, Copy, Debug, PartialEq)]
pub enum RecordFilter {
    // Restoration by what is measured in the picture; its record has length 0.
    WholeJob(f64),
    Restoration(f64),
    Unsharp(f64),
    Binomial,
}

impl RecordFilter {
    // The filter's number in a record.
    pub fn code(self) -> u8
        ensures { result ≡ filter_code self }
    {
        match self {
            RecordFilter::WholeJob(_) | RecordFilter::Restoration(_) => 1,
            RecordFilter::Unsharp(_) => 2,
            RecordFilter::Binomial => 3,
        }
    }

    // The filter of a result: a whole job's is the restoration that it came to.
    pub fn used(self) -> Self
        ensures { result ≡ used_filter self }
    {
        match self {
            RecordFilter::WholeJob(relaxation) => RecordFilter::Restoration(relaxation),
            other => other,
        }
    }
}

#[derive(Clone, Copy, Debug, PartialEq)]
pub struct Record {
    pub width: u16,
    pub height: u16,
    pub direction: RasterDirection4,
    pub border: LineBorderMode,
    pub filter: RecordFilter,
    pub blur_length: u16,
    pub iterations: u16,
    pub angle: f64,
    pub estimate: f64,
}

// The filter that the fields name, none for another number. Filter 1 of length 0 is the whole job. No `TryFrom`:
// number, length and q make it together.
fn filter_from(fields: Fields) -> Option<RecordFilter>
    ensures { result ≡ filter_from fields }
{
    let factor = floats::factor_of_q16(fields.q);
    match fields.head.filter {
        1 if fields.blur_length == 0 => Some(RecordFilter::WholeJob(factor)),
        1 => Some(RecordFilter::Restoration(factor)),
        2 => Some(RecordFilter::Unsharp(factor)),
        3 => Some(RecordFilter::Binomial),
        _ => None,
    }
}

fn record_of(filter: RecordFilter, fields: Fields) -> Record
    requires { legal filter fields ≡ true }
    ensures { result ≡ record_of filter fields }
{
    Record {
        width: fields.head.width,
        height: fields.head.height,
        direction: RasterDirection4::from_index(fields.direction),
        border: LineBorderMode::from_code(fields.border, fields.value),
        filter,
        blur_length: fields.blur_length,
        iterations: fields.iterations,
        angle: f64::from_bits(fields.angle),
        estimate: f64::from_bits(fields.estimate),
    }
}

// The record of fields that break no limit of the filter that they name.
#[tactic(auto, unfolding(crate::specs::Record::read_fields))]
fn read_fields(fields: Fields) -> Result<Record, Refusal>
    ensures { told result ≡ read_fields fields }
{
    let filter = filter_from(fields).ok_or(Refusal::InvalidRecord)?;
    if !is_legal(filter, fields) {
        return Err(Refusal::InvalidRecord);
    }
    Ok(record_of(filter, fields))
}

// Whether q / 65,536 is the factor, bit for bit: -0.0 would come back as 0.0.
fn is_factor(q: u32, factor: f64) -> bool
    ensures { result ≡ is_factor q factor }
{
    factor.is_finite() && floats::factor_of_q16(q).to_bits() == factor.to_bits()
}

// q where it is the factor exactly.
fn exact_q(quantized: Option<u32>, factor: f64) -> Option<u32>
    ensures { result ≡ exact_q quantized factor }
{
    quantized.filter(|q| is_factor(*q, factor))
}

#[tactic(auto, unfolding(crate::specs::Record::filter_q))]
fn filter_q(filter: RecordFilter) -> Option<u32>
    ensures { result ≡ filter_q filter }
{
    match filter {
        RecordFilter::WholeJob(factor) | RecordFilter::Restoration(factor) => {
            exact_q(floats::quantize_relaxation(factor), factor)
        }
        RecordFilter::Unsharp(factor) => exact_q(floats::quantize_gain(factor), factor),
        RecordFilter::Binomial => Some(0),
    }
}

fn fields_of(record: Record, q: u32) -> Fields
    requires { (finite «record».angle ≡ true) × (finite «record».estimate ≡ true) }
    ensures { result ≡ fields_of «record» q }
{
    Fields {
        head: Head {
            width: record.width,
            height: record.height,
            filter: record.filter.code(),
        },
        direction: record.direction.index(),
        border: record.border.code(),
        value: record.border.value(),
        blur_length: record.blur_length,
        iterations: record.iterations,
        q,
        angle: record.angle.to_bits(),
        estimate: record.estimate.to_bits(),
    }
}

// The fields where they break no limit.
fn checked_fields(record: Record, q: u32) -> Option<Fields>
    ensures { result ≡ checked «record».filter (fields_of «record» q) }
{
    if !record.angle.is_finite() || !record.estimate.is_finite() {
        return None;
    }
    let fields = fields_of(record, q);
    if is_legal(record.filter, fields) {
        Some(fields)
    } else {
        None
    }
}

// None where the record breaks its layout, or its factor is no q / 65,536.
#[tactic(auto, unfolding(crate::specs::Record::record_fields))]
fn record_fields(record: Record) -> Option<Fields>
    ensures { result ≡ record_fields «record» }
{
    let q = filter_q(record.filter)?;
    checked_fields(record, q)
}

// The record in 32 bytes.
#[tactic(auto, unfolding(crate::specs::Record::read_record))]
pub fn read(bytes: &[u8]) -> Result<Record, Refusal>
    ensures { told result ≡ read_record bytes.now }
{
    if bytes.len() != 32 {
        return Err(Refusal::InvalidRecord);
    }
    read_fields(fields_in(bytes))
}

// The record's 32 bytes into a slice, each field where it belongs. A refusal changes nothing.
#[tactic(auto, unfolding(crate::specs::Record::to_write))]
pub fn write(record: Record, bytes: &mut [u8]) -> Result<(), Refusal>
    ensures { Wrote «record» bytes.old bytes.new (told result) }
{
    if bytes.len() != 32 {
        return Err(Refusal::InvalidRecord);
    }
    let fields = record_fields(record).ok_or(Refusal::InvalidRecord)?;
    put_fields(fields, bytes);
    Ok(())
}

// Whether the record is a job's: direction 0 and estimate bits 0.
#[tactic(auto, unfolding(crate::specs::Record::is_job))]
pub fn is_job(record: Record) -> bool
    ensures { result ≡ is_job «record» }
{
    if !record.estimate.is_finite() {
        return false;
    }
    record.direction == RasterDirection4::Horizontal && record.estimate.to_bits() == 0
}
