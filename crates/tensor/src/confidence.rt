// Whether the sums show a direction at all, and clearly enough (document 02, K6): their confidence is 1 minus the
// smaller over the larger eigenvalue.
ghost use Rattle.std.specs.Prelude.{◌≡◌, ◌+◌, ◌*◌, ◌^◌, ◌≤◌, ◌<◌, leb, nat_abs};
ghost use Rattle.tensor.specs.Confidence.{max_floor, at_least, passes};
ghost use Rattle.tensor.specs.Tensor.{no_direction, Small};

use crate::direction::TensorSums;

// A confidence of 1, in 256ths.
const MAX_FLOOR: u16 = 256;

// There is no interior pixel, or no gradient.
pub(crate) fn no_direction(width: usize, height: usize, sums: TensorSums) -> bool
    requires { nat_abs sums.a + nat_abs sums.e < 2 ^ 63 }
    ensures { result ≡ no_direction width height sums.a sums.e }
{
    width < 3 || height < 3 || sums.a + sums.e == 0
}

// a × b ≥ c × d. The products exceed 64 bits.
fn products_reach(a: u64, b: u64, c: u64, d: u64) -> bool
    ensures { result ≡ leb (c * d) (a * b) }
{
    u128::from(a) * u128::from(b) >= u128::from(c) * u128::from(d)
}

// x² + y² ≥ z². Where z exceeds y, x × x is compared with (z − y) × (z + y).
fn squares_reach(x: u64, y: u64, z: u64) -> bool
    requires { y + z < 2 ^ 64 }
    ensures { result ≡ leb (z ^ 2) (x ^ 2 + y ^ 2) }
{
    if y >= z {
        return true;
    }
    products_reach(x, x, z - y, z + y)
}

// (512 − floor)² × (D² + 4C²) ≥ floor² × (A + E)², with D = A − E: three squares.
fn reaches(sums: TensorSums, floor: u16) -> bool
    requires { (floor ≤ max_floor) × Small sums.a sums.c sums.e }
    ensures { result ≡ at_least floor sums.a sums.c sums.e }
{
    let rest = u64::from(512 - floor);
    squares_reach(
        rest * (sums.a - sums.e).unsigned_abs(),
        rest * (2 * sums.c.unsigned_abs()),
        u64::from(floor) * (sums.a + sums.e).unsigned_abs(),
    )
}

// Whether the confidence is at least floor / 256. A picture without a direction passes for 0 alone.
#[tactic(auto, unfolding(crate::specs::Confidence::passes))]
pub(crate) fn is_confident(width: usize, height: usize, sums: TensorSums, floor: u16) -> bool
    requires { Small sums.a sums.c sums.e }
    ensures { result ≡ passes floor width height sums.a sums.c sums.e }
{
    if no_direction(width, height, sums) {
        return floor == 0;
    }
    if floor > MAX_FLOOR {
        return false;
    }
    reaches(sums, floor)
}
