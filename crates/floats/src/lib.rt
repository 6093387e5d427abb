// What the stage asks of doubles: q from a factor and back, and the odd length that an estimate gives.
#![tactic(auto)]

ghost use Rattle.std.specs.Prelude.{◌≡◌, ◌^◌, ◌≤◌, T};
ghost use Rattle.std.specs.Float.Ieee.Positive.{num, den};
ghost use Rattle.floats.specs.Factor.{max_relaxation, max_gain, within, rounded_q16, quantized, factor_of};
ghost use Rattle.floats.specs.Odd.{ceiling, odd_from, odd_length};

// q is the factor times this.
pub const SCALE: u32 = 65536;

// The largest factors that are taken.
pub const MAX_RELAXATION: u8 = 1;

pub const MAX_GAIN: u8 = 8;

// The scale as a double, and the number of its halves.
const PARTS: f64 = SCALE as f64;

const HALVES: f64 = (2 * SCALE) as f64;

// Whether refusal 8 takes the factor.
pub fn is_within(factor: f64, limit: u8) -> bool
    ensures { result ≡ within limit factor }
{
    if factor < 0.0 {
        return false;
    }
    factor <= limit as f64
}

// q of a factor that is taken. The product is exact, so the rounding is the integers' alone.
// No `round`: the stage rounds by its own rule, as the requirements ask (document 01).
pub fn round_q16(factor: f64) -> u32
    requires { T (within 255 factor) }
    ensures { result ≡ rounded_q16 factor }
{
    let halves = std::num::truncating_f64_to_u64(factor * HALVES);
    ((halves + 1) / 2) as u32
}

// q of a factor in 0..limit.
fn quantize(factor: f64, limit: u8) -> Option<u32>
    ensures { result ≡ quantized limit factor }
{
    if is_within(factor, limit) {
        Some(round_q16(factor))
    } else {
        None
    }
}

// q of a relaxation.
// Two names: the callers have no limit at hand, and each has its own.
pub fn quantize_relaxation(factor: f64) -> Option<u32>
    ensures { result ≡ quantized max_relaxation factor }
{
    quantize(factor, MAX_RELAXATION)
}

// q of a gain.
pub fn quantize_gain(factor: f64) -> Option<u32>
    ensures { result ≡ quantized max_gain factor }
{
    quantize(factor, MAX_GAIN)
}

// The factor q / 65,536, exactly.
pub fn factor_of_q16(q: u32) -> f64
    ensures { result ≡ factor_of q }
{
    q as f64 / PARTS
}

// x raised to a whole number. Up to 2^53 the whole part is a double too.
// No `ceil`: the stage rounds by its own rule, as the requirements ask (document 01).
fn raised(x: f64) -> u64
    requires { T (within (2 ^ 53) x) }
    ensures { result ≡ ceiling (num x) (den x) }
{
    let whole = std::num::truncating_f64_to_u64(x);
    if (whole as f64) < x {
        return whole + 1;
    }
    whole
}

// c where c is odd, and else c + 1.
fn odd_from(c: u64) -> u64
    requires { c ≤ 2 ^ 53 }
    ensures { result ≡ odd_from c }
{
    c / 2 * 2 + 1
}

// The smallest odd whole number that is at least 3 and at least the estimate. None where the estimate is no number or
// above 2^53.
pub fn odd_length(estimate: f64) -> Option<u64>
    ensures { result ≡ odd_length estimate }
{
    if estimate <= 3.0 {
        return Some(3);
    }
    if estimate <= 9007199254740992.0 {
        return Some(odd_from(raised(estimate)));
    }
    None
}
