// The four directions of a line, and the one nearest to an angle.
ghost use Rattle.std.specs.Prelude.{◌≡◌, ◌/◌, ◌%◌, T};
ghost use Rattle.std.specs.Float.Ieee.Positive.{positive, num, den};
ghost use Rattle.raster.specs.Direction.{step_of, direction_index, direction_from, signed_rest, half_turn, nearest, nearest_to};
ghost use Rattle.raster.specs.Direction.{from_angle};

#[derive(Clone, Copy, Debug, PartialEq, Eq)]
pub enum RasterDirection4 {
    Horizontal,
    DownRight,
    Vertical,
    DownLeft,
}

// Columns and rows from one place of a line to the next.
#[derive(Clone, Copy, Debug, PartialEq, Eq)]
pub struct RasterStep {
    pub dx: i64,
    pub dy: i64,
}

// The rest of x's whole part by 180. From 2^53 on a double is an even whole number, so its half is one too.
fn whole_rest(x: f64) -> u64
    requires { T (positive x) }
    ensures { result ≡ num x / den x % 180 }
{
    if x < 9007199254740992.0 {
        return std::num::truncating_f64_to_u64(x) % 180;
    }
    let half = whole_rest(x * 0.5);
    half * 2 % 180
}

// The part of x after its whole part. Below 2^53 the difference is exact.
fn rest_of_size(x: f64) -> f64
    requires { T (positive x) }
    ensures { result ≡ signed_rest x }
{
    let rest = whole_rest(x);
    if x < 9007199254740992.0 {
        let whole = std::num::truncating_f64_to_u64(x);
        return rest as f64 + (x - whole as f64);
    }
    rest as f64
}

// The rest by a half turn, exactly and with the sign of the degrees. `%` on doubles is C's `fmod`, which not every
// machine's library has under the name that programs are linked to.
fn rest_of(degrees: f64) -> f64
    ensures { result ≡ signed_rest degrees }
{
    if !degrees.is_finite() {
        return 0.0 / 0.0;
    }
    if degrees == 0.0 {
        return degrees;
    }
    if degrees < 0.0 {
        return -rest_of_size(-degrees);
    }
    rest_of_size(degrees)
}

// Degrees, taken modulo a half turn.
fn half_turn(degrees: f64) -> f64
    ensures { result ≡ half_turn degrees }
{
    let rest = rest_of(degrees);
    if rest < 0.0 {
        return rest + 180.0;
    }
    rest
}

// The direction nearest to v eighths of a turn.
fn nearest_direction(v: f64) -> RasterDirection4
    ensures { result ≡ nearest v }
{
    if v < 0.5 {
        return RasterDirection4::Horizontal;
    }
    if v < 1.5 {
        return RasterDirection4::DownRight;
    }
    if v < 2.5 {
        return RasterDirection4::Vertical;
    }
    if v < 3.5 {
        return RasterDirection4::DownLeft;
    }
    RasterDirection4::Horizontal
}

// The direction nearest to finite degrees.
fn nearest_to(degrees: f64) -> RasterDirection4
    ensures { result ≡ nearest_to degrees }
{
    nearest_direction(half_turn(degrees) / 45.0)
}

impl RasterDirection4 {
    pub fn step(self) -> RasterStep
        ensures { result ≡ step_of self }
    {
        match self {
            RasterDirection4::Horizontal => RasterStep { dx: 1, dy: 0 },
            RasterDirection4::DownRight => RasterStep { dx: 1, dy: 1 },
            RasterDirection4::Vertical => RasterStep { dx: 0, dy: 1 },
            RasterDirection4::DownLeft => RasterStep { dx: -1, dy: 1 },
        }
    }

    // The direction's number in a record.
    pub fn index(self) -> u8
        ensures { result ≡ direction_index self }
    {
        match self {
            RasterDirection4::Horizontal => 0,
            RasterDirection4::DownRight => 1,
            RasterDirection4::Vertical => 2,
            RasterDirection4::DownLeft => 3,
        }
    }

    // The direction of a number of a record, 0 to 3; of any other the last: no `TryFrom`, it never fails.
    pub fn from_index(index: u8) -> Self
        ensures { result ≡ direction_from index }
    {
        match index {
            0 => RasterDirection4::Horizontal,
            1 => RasterDirection4::DownRight,
            2 => RasterDirection4::Vertical,
            _ => RasterDirection4::DownLeft,
        }
    }

    // The direction nearest to an angle; none where its degrees are not finite, which they are only where the angle is.
    pub fn from_angle(theta_radians: f64) -> Option<RasterDirection4>
        ensures { result ≡ from_angle theta_radians }
    {
        let degrees = theta_radians * 57.29577951308232;
        if degrees.is_finite() {
            return Some(nearest_to(degrees));
        }
        None
    }
}
