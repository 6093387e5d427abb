// The border map: where the sample at a place before, on or behind a line comes from.
ghost use Rattle.std.specs.Prelude.{cond, ◌≡◌, ◌*◌, ◌-◌, ◌%◌, ◌≤◌, ◌<◌, max};
ghost use Rattle.std.proofs.Math.IntN.{sub_ℕ};
ghost use Rattle.image.specs.Refusal.{max_side};
ghost use Rattle.raster.specs.Border.{border_code, border_value, border_from, is_border};
ghost use Rattle.raster.specs.Border.{border_map, constant, modℤ, nearer, reflected};

// What stands outside a line.
#[derive(Clone, Copy, Debug, PartialEq, Eq)]
pub enum LineBorderMode {
    // The nearer end of the line.
    Replicate,
    // The line reflected at its ends, which are not repeated.
    Reflect,
    // A grey value.
    Constant(u8),
    // The line again: behind its last place comes its first.
    Wrap,
}

impl LineBorderMode {
    // The border's number in a record. No `From`: a border is a number and a value.
    pub fn code(self) -> u8
        ensures { result ≡ border_code self }
    {
        match self {
            LineBorderMode::Replicate => 0,
            LineBorderMode::Reflect => 1,
            LineBorderMode::Constant(_) => 2,
            LineBorderMode::Wrap => 3,
        }
    }

    // A constant border's value; 0 for the others.
    pub fn value(self) -> u8
        ensures { result ≡ border_value self }
    {
        match self {
            LineBorderMode::Replicate => 0,
            LineBorderMode::Reflect => 0,
            LineBorderMode::Constant(value) => value,
            LineBorderMode::Wrap => 0,
        }
    }

    // The border of a number and a value; a number that is no border's stands for Constant. No `TryFrom`: it never fails.
    pub fn from_code(code: u8, value: u8) -> Self
        ensures { result ≡ border_from code value }
    {
        match code {
            0 => LineBorderMode::Replicate,
            1 => LineBorderMode::Reflect,
            3 => LineBorderMode::Wrap,
            _ => LineBorderMode::Constant(value),
        }
    }

    // Whether a border has this number and this value.
    pub fn is_code(code: u8, value: u8) -> bool
        ensures { result ≡ is_border code value }
    {
        let border = LineBorderMode::from_code(code, value);
        (border.code() == code) & (border.value() == value)
    }
}

// Where a sample comes from: a place of the line, or a value outside it. No `Result`: neither is a failure.
#[derive(Clone, Copy, Debug, PartialEq, Eq)]
pub enum BorderSample {
    Inside(usize),
    Outside(u8),
}

// The place u - half, if it is on the line, or the nearer end. Three branches, as the definition has them.
fn nearer_end(u: usize, half: usize, length: usize) -> usize
    requires { 0 < length }
    ensures { result ≡ nearer length (sub_ℕ u half) }
{
    if u < half {
        return 0;
    }
    if u - half < length {
        return u - half;
    }
    length - 1
}

// a mod modulus, without a division within the first period.
fn remainder(a: usize, modulus: usize) -> usize
    requires { 0 < modulus }
    ensures { result ≡ a % modulus }
{
    if a < modulus {
        return a;
    }
    a % modulus
}

// (u - half) mod modulus, also where u - half is negative: std's is of a signed number, and divides.
fn rem_euclid(u: usize, half: usize, modulus: usize) -> usize
    requires { 0 < modulus }
    ensures { result ≡ modℤ (sub_ℕ u half) modulus }
{
    if u < half {
        return modulus - 1 - remainder(half - u - 1, modulus);
    }
    remainder(u - half, modulus)
}

// After how many places a reflected line comes again.
pub fn reflected_period(length: usize) -> usize
    requires { (1 ≤ length) × (length ≤ max_side) }
    ensures { result ≡ max 1 (2 * length - 2) }
{
    if length == 1 {
        return 1;
    }
    2 * length - 2
}

// After how many places a line comes again, reflected or, for the second time, wrapped: so the line and the places
// about it lie in one period of either border.
fn long_period(length: usize, wraps: bool) -> usize
    requires { (1 ≤ length) × (length ≤ max_side) }
    ensures { result ≡ cond wraps (2 * length) (max 1 (2 * length - 2)) }
{
    if wraps {
        return 2 * length;
    }
    reflected_period(length)
}

// The place u - half of the line that comes again behind its ends, wrapped or reflected.
fn periodic_place(u: usize, half: usize, length: usize, wraps: bool) -> usize
    requires { (1 ≤ length) × (length ≤ max_side) }
    ensures { result ≡ cond wraps (modℤ (sub_ℕ u half) length) (reflected length (sub_ℕ u half)) }
{
    let period = long_period(length, wraps);
    let remainder = rem_euclid(u, half, period);
    if remainder < length {
        return remainder;
    }
    if wraps {
        return remainder - length;
    }
    period - remainder
}

// The place u - half, if it is on the line, or the value.
fn constant_sample(u: usize, half: usize, length: usize, value: u8) -> BorderSample
    ensures { result ≡ constant value length (sub_ℕ u half) }
{
    if u < half {
        return BorderSample::Outside(value);
    }
    if u - half < length {
        return BorderSample::Inside(u - half);
    }
    BorderSample::Outside(value)
}

// Where the sample at the place u - half of a line comes from.
pub fn border_index(u: usize, half: usize, length: usize, border: LineBorderMode) -> BorderSample
    requires { (0 < length) × (length ≤ max_side) }
    ensures { result ≡ border_map border length (sub_ℕ u half) }
{
    match border {
        LineBorderMode::Replicate => BorderSample::Inside(nearer_end(u, half, length)),
        LineBorderMode::Constant(value) => constant_sample(u, half, length, value),
        // One arm, so one call: of two the compiler makes a function, which the loops at the ends of lines then call.
        LineBorderMode::Reflect | LineBorderMode::Wrap => {
            BorderSample::Inside(periodic_place(u, half, length, border.code() == 3))
        }
    }
}
