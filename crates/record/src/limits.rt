// The limits of a record's fields.
ghost use Rattle.std.specs.Prelude.{◌≡◌};
ghost use Rattle.record.specs.Fields.{side_legal, length_legal, finite_bits, angle_legal, estimate_legal};
ghost use Rattle.record.specs.Fields.{line_legal, iterated_legal, unmeasured, filter_legal, legal};

use crate::RecordFilter;
use crate::fields::Fields;
use image::Gray8View;
use line::kernel::LineKernel;
use raster::border::LineBorderMode;
use raster::direction::RasterDirection4;

// The limits as the fields' types.
const MAX_SIDE: u16 = Gray8View::MAX_SIDE as u16;

const MAX_ITERATIONS: u16 = LineKernel::MAX_ITERATIONS as u16;

const MAX_RELAXATION_Q: u32 = floats::MAX_RELAXATION as u32 * floats::SCALE;

const MAX_GAIN_Q: u32 = floats::MAX_GAIN as u32 * floats::SCALE;

fn is_side(n: u16) -> bool
    ensures { result ≡ side_legal n }
{
    1 <= n && n <= MAX_SIDE
}

fn is_length(width: u16, height: u16, n: u16) -> bool
    ensures { result ≡ length_legal width height n }
{
    let longest = 2 * (width as usize).max(height as usize) + 1;
    n % 2 == 1 && 3 <= n && n as usize <= longest
}

// Bits above infinity's are a NaN's, and no double is made of those.
#[tactic(auto, using(floats::proofs::Finite::is_finite_is))]
fn is_finite_bits(bits: u64) -> bool
    ensures { result ≡ finite_bits bits }
{
    if bits % 0x8000_0000_0000_0000 > 0x7ff0_0000_0000_0000 {
        return false;
    }
    let x = f64::from_bits(bits);
    x.is_finite()
}

// Whether the angle has a direction.
fn is_angle(bits: u64) -> bool
    ensures { result ≡ angle_legal bits }
{
    is_finite_bits(bits) && RasterDirection4::from_angle(f64::from_bits(bits)).is_some()
}

fn is_estimate(bits: u64) -> bool
    ensures { result ≡ estimate_legal bits }
{
    is_finite_bits(bits) && (bits == 0 || 0.0 < f64::from_bits(bits))
}

#[tactic(auto, unfolding(crate::specs::Fields::line_legal))]
fn is_line(fields: Fields) -> bool
    ensures { result ≡ line_legal fields }
{
    fields.direction <= 3
        && LineBorderMode::is_code(fields.border, fields.value)
        && is_angle(fields.angle)
        && is_estimate(fields.estimate)
}

// What both restorations ask.
#[tactic(auto, unfolding(crate::specs::Fields::iterated_legal))]
fn is_iterated(fields: Fields) -> bool
    ensures { result ≡ iterated_legal fields }
{
    is_line(fields)
        && 1 <= fields.iterations
        && fields.iterations <= MAX_ITERATIONS
        && fields.q <= MAX_RELAXATION_Q
}

fn is_unmeasured(fields: Fields) -> bool
    ensures { result ≡ unmeasured fields }
{
    fields.direction == 0 && fields.blur_length == 0 && fields.angle == 0 && fields.estimate == 0
}

#[tactic(auto, unfolding(crate::specs::Fields::filter_legal))]
fn is_filter(filter: RecordFilter, fields: Fields) -> bool
    ensures { result ≡ filter_legal filter fields }
{
    match filter {
        RecordFilter::WholeJob(_) => is_iterated(fields) && is_unmeasured(fields),
        RecordFilter::Restoration(_) => {
            is_iterated(fields)
                && is_length(fields.head.width, fields.head.height, fields.blur_length)
        }
        RecordFilter::Unsharp(_) => {
            is_line(fields)
                && is_length(fields.head.width, fields.head.height, fields.blur_length)
                && fields.iterations == 0
                && fields.q <= MAX_GAIN_Q
        }
        RecordFilter::Binomial => {
            is_unmeasured(fields)
                && fields.border == 0
                && fields.value == 0
                && fields.iterations == 0
                && fields.q == 0
        }
    }
}

// Whether the fields of the filter break no limit.
#[tactic(auto, unfolding(crate::specs::Fields::legal))]
pub(crate) fn is_legal(filter: RecordFilter, fields: Fields) -> bool
    ensures { result ≡ legal filter fields }
{
    is_side(fields.head.width) && is_side(fields.head.height) && is_filter(filter, fields)
}
