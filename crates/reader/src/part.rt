// A part of the input.
ghost use Rattle.std.specs.Prelude.{◌≡◌, ℕ, ◌+◌, ◌^◌, ◌<◌, ◌≤◌, length, drop};

// Bytes of the input, and the offset at which they begin.
#[derive(Clone, Copy)]
pub(crate) struct Part<'a> {
    pub bytes: &'a [u8],
    pub at: usize,
    ghost fits: { at + length bytes.now < 2 ^ 64 },
}

impl<'a> Part<'a> {
    // What lies behind its first `size` bytes.
    pub(crate) fn behind(self, size: usize) -> Part<'a>
        requires { size ≤ length self.bytes.now }
        ensures bytes { result.bytes.now ≡ drop size self.entry.bytes.now }
        ensures at { result.at ≡ self.entry.at + size }
    {
        Part {
            bytes: &self.bytes[size..],
            at: self.at + size,
        }
    }
}
