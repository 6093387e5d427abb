// What every filter does to a pixel before it is written.
#![tactic(auto)]

ghost use Rattle.std.specs.Prelude.{◌≡◌};
ghost use Rattle.numbers.specs.Scalar.{clamp_byte};

// v cut to 0..255.
pub fn clamp_u8(v: i32) -> u8
    ensures { result ≡ clamp_byte v }
{
    v.clamp(0, 255) as u8
}
