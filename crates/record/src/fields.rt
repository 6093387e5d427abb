// The fields of a record as numbers.
ghost use Rattle.std.specs.Prelude.{◌≡◌, length};
ghost use Rattle.std.proofs.lemmas.List.Edits.{sets};
ghost use Rattle.record.specs.Fields.{decoded_head, decoded, head_bytes, count_bytes, double_bytes, encoded};

use crate::bytes::{part, put};

// What every record has, whatever its filter.
#[derive(Clone, Copy, Debug, PartialEq, Eq)]
pub(crate) struct Head {
    pub(crate) width: u16,
    pub(crate) height: u16,
    pub(crate) filter: u8,
}

#[derive(Clone, Copy, Debug, PartialEq, Eq)]
pub(crate) struct Fields {
    pub(crate) head: Head,
    pub(crate) direction: u8,
    pub(crate) border: u8,
    pub(crate) value: u8,
    pub(crate) blur_length: u16,
    pub(crate) iterations: u16,
    pub(crate) q: u32,
    pub(crate) angle: u64,
    pub(crate) estimate: u64,
}

// The head in 32 bytes.
pub(crate) fn head_in(bytes: &[u8]) -> Head
    requires { length bytes.now ≡ 32 }
    ensures { result ≡ decoded_head bytes.now }
{
    Head {
        width: u16::from_le_bytes(part(bytes, 0)),
        height: u16::from_le_bytes(part(bytes, 2)),
        filter: bytes[7],
    }
}

// The fields in 32 bytes.
pub(crate) fn fields_in(bytes: &[u8]) -> Fields
    requires { length bytes.now ≡ 32 }
    ensures { result ≡ decoded bytes.now }
{
    Fields {
        head: head_in(bytes),
        direction: bytes[4],
        border: bytes[5],
        value: bytes[6],
        blur_length: u16::from_le_bytes(part(bytes, 8)),
        iterations: u16::from_le_bytes(part(bytes, 10)),
        q: u32::from_le_bytes(part(bytes, 12)),
        angle: u64::from_le_bytes(part(bytes, 16)),
        estimate: u64::from_le_bytes(part(bytes, 24)),
    }
}

// Width, height and the four single bytes.
fn put_head(fields: Fields, bytes: &mut [u8])
    requires { length bytes.old ≡ 32 }
    ensures { bytes.new ≡ sets bytes.old 0 (head_bytes fields.head.width fields.head.height
        fields.direction fields.border fields.value fields.head.filter) }
{
    put(bytes, 0, fields.head.width.to_le_bytes());
    put(bytes, 2, fields.head.height.to_le_bytes());
    bytes[4] = fields.direction;
    bytes[5] = fields.border;
    bytes[6] = fields.value;
    bytes[7] = fields.head.filter;
}

// Blur length, iterations and q.
fn put_counts(fields: Fields, bytes: &mut [u8])
    requires { length bytes.old ≡ 32 }
    ensures { bytes.new ≡ sets bytes.old 8 (count_bytes fields.blur_length fields.iterations fields.q) }
{
    put(bytes, 8, fields.blur_length.to_le_bytes());
    put(bytes, 10, fields.iterations.to_le_bytes());
    put(bytes, 12, fields.q.to_le_bytes());
}

// Angle and estimate.
fn put_doubles(fields: Fields, bytes: &mut [u8])
    requires { length bytes.old ≡ 32 }
    ensures { bytes.new ≡ sets bytes.old 16 (double_bytes fields.angle fields.estimate) }
{
    put(bytes, 16, fields.angle.to_le_bytes());
    put(bytes, 24, fields.estimate.to_le_bytes());
}

// Each field where it belongs.
pub(crate) fn put_fields(fields: Fields, bytes: &mut [u8])
    requires { length bytes.old ≡ 32 }
    ensures { bytes.new ≡ encoded fields }
{
    put_head(fields, bytes);
    put_counts(fields, bytes);
    put_doubles(fields, bytes);
}
