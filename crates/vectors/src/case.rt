// A case of the list: 50 bytes of numbers, little-endian, then the source's bytes, then the destination's as the Rust
// leaves it.
//
//    0  the call: 0 from_angle, 1 direction, 2 length, 3 restoration, 4 line unsharp, 5 binomial, 6 single halving,
//       7 halvings
//    1  the number of the refusal, 0 where the call is accepted; 7 for 8 too, since the Rust has one error for both
//    2  the direction's number; for a length 1 where there is one
//    3  border: 0 Replicate, 1 Reflect, 2 Constant; at 4 its value
//    5  least amplitude of a swing
//    6  iterations, least number of swings, or halvings, 2 bytes
//    8  blur length, 2 bytes
//   10  length, width, height and stride of the source, 2 bytes each; at 18 those of the destination
//   26  angle, at 34 relaxation or gain, at 42 the length: bits of a double, 8 bytes each
//
// What a call does not have is 0.
ghost use Rattle.std.specs.Prelude.{◌≤◌, ◌<◌};

use image::Layout;

// A call that a case may ask for.
#[derive(Clone, Copy, Debug, PartialEq, Eq)]
pub enum Call {
    FromAngle,
    Direction,
    Length,
    Restoration,
    Unsharp,
    Binomial,
    Half,
    Halvings,
}

// A number that no call has.
#[derive(Clone, Copy, Debug, PartialEq, Eq)]
pub struct NoCall;

impl TryFrom<u8> for Call {
    type Error = NoCall;

    fn try_from(number: u8) -> Result<Call, NoCall> {
        match number {
            0 => Ok(Call::FromAngle),
            1 => Ok(Call::Direction),
            2 => Ok(Call::Length),
            3 => Ok(Call::Restoration),
            4 => Ok(Call::Unsharp),
            5 => Ok(Call::Binomial),
            6 => Ok(Call::Half),
            7 => Ok(Call::Halvings),
            _ => Err(NoCall),
        }
    }
}

#[derive(Clone, Copy, Debug, PartialEq)]
pub struct Case {
    pub call: Result<Call, NoCall>,
    pub number: u8,
    pub found: u8,
    pub border: u8,
    pub value: u8,
    pub amplitude: u8,
    pub count: usize,
    pub blur_length: usize,
    pub source: Layout,
    pub destination: Layout,
    pub angle: f64,
    pub factor: f64,
    pub estimate: f64,
}

// The byte at a place; 0 behind the last.
fn byte_at(bytes: &[u8], at: usize) -> u8 {
    bytes.get(at).copied().unwrap_or(0)
}

// N bytes from a place on.
fn bytes_at<const N: usize>(bytes: &[u8], at: usize) -> [u8; N] {
    let mut found = [0u8; N];
    for (byte, i) in found.iter_mut().zip(at..) {
        *byte = byte_at(bytes, i);
    }
    found
}

fn u16_at(bytes: &[u8], at: usize) -> usize
    ensures { result < 65536 }
{
    usize::from(u16::from_le_bytes(bytes_at(bytes, at)))
}

// The double of a pattern. No double is made of a NaN's bits: each of them gives the same NaN.
fn double(bits: u64) -> f64 {
    if 0x7ff0_0000_0000_0000 < bits % 0x8000_0000_0000_0000 {
        return 0.0 / 0.0;
    }
    f64::from_bits(bits)
}

fn double_at(bytes: &[u8], at: usize) -> f64 {
    double(u64::from_le_bytes(bytes_at(bytes, at)))
}

fn layout_at(bytes: &[u8], at: usize) -> Layout
    requires { at < 50 }
{
    Layout {
        len: u16_at(bytes, at),
        width: u16_at(bytes, at + 2),
        height: u16_at(bytes, at + 4),
        stride: u16_at(bytes, at + 6),
    }
}

pub(crate) fn case_in(bytes: &[u8]) -> Case {
    Case {
        call: Call::try_from(byte_at(bytes, 0)),
        number: byte_at(bytes, 1),
        found: byte_at(bytes, 2),
        border: byte_at(bytes, 3),
        value: byte_at(bytes, 4),
        amplitude: byte_at(bytes, 5),
        count: u16_at(bytes, 6),
        blur_length: u16_at(bytes, 8),
        source: layout_at(bytes, 10),
        destination: layout_at(bytes, 18),
        angle: double_at(bytes, 26),
        factor: double_at(bytes, 34),
        estimate: double_at(bytes, 42),
    }
}

// How many bytes the case at the front has.
pub(crate) fn size_at(bytes: &[u8]) -> usize
    ensures { (50 ≤ result) × (result ≤ 131120) }
{
    50 + u16_at(bytes, 10) + u16_at(bytes, 18)
}

// What stands behind the first n bytes.
fn behind(bytes: &[u8], n: usize) -> &[u8] {
    bytes.get(n..).unwrap_or(&[])
}

// The source's bytes; none where there are fewer.
pub(crate) fn source_in(bytes: &[u8], c: Case) -> &[u8] {
    behind(bytes, 50).get(..c.source.len).unwrap_or(&[])
}

// The destination's bytes are the rest.
pub(crate) fn destination_in(bytes: &[u8], c: Case) -> &[u8] {
    behind(behind(bytes, 50), c.source.len)
}
