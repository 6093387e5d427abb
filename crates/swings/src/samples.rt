// The samples of a line.
ghost use Rattle.std.specs.Prelude.{◌≡◌, ◌+◌, ◌*◌, ◌≤◌, ◌<◌, ◌^◌, length};

// Samples 0 to `last` of a line. Sample i stands at start + i * step of the bytes.
#[derive(Clone, Copy)]
pub(crate) struct Samples<'a> {
    pub(crate) bytes: &'a [u8],
    pub(crate) start: usize,
    pub(crate) step: usize,
    pub(crate) last: usize,
    ghost inside: { start + last * step < length bytes.now },
    ghost few: { last ≤ 2 ^ 53 },
}

impl<'a> Samples<'a> {
    ghost use Rattle.swings.specs.Samples.{samples_of};

    // Sample i.
    pub(crate) fn at(self, i: usize) -> u8
        requires { i ≤ self.last }
        ensures { result ≡ samples_of self.entry i }
    {
        self.bytes[self.start + i * self.step]
    }
}
