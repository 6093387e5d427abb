// Numbers in a slice stand in as many bytes as their type has, the lowest first.
ghost use Rattle.std.specs.Prelude.{◌≡◌, ◌+◌, ◌≤◌, length, take, drop};
ghost use Rattle.std.proofs.lemmas.List.Edits.{sets};

// The N bytes from `at` on.
pub(crate) fn part<const N: usize>(bytes: &[u8], at: usize) -> [u8; N]
    requires { at + N ≤ length bytes.now }
    ensures { result ≡ take N (drop at bytes.now) }
{
    let mut part = [0; N];
    part.copy_from_slice(&bytes[at..at + N]);
    part
}

// Bytes from `at` on.
pub(crate) fn put<const N: usize>(bytes: &mut [u8], at: usize, part: [u8; N])
    requires { at + N ≤ length bytes.old }
    ensures { bytes.new ≡ sets bytes.old at part.entry }
{
    bytes[at..at + N].copy_from_slice(&part);
}
