// The header of a record.
ghost use Rattle.std.specs.Prelude.{ℕ, ◌+◌, ◌^◌, ◌<◌, ◌≤◌, length};

// The offset at which it begins, the record's length, its packet code, and all that lies behind it.
#[derive(Clone, Copy)]
pub(crate) struct Header<'a> {
    pub at: usize,
    pub size: usize,
    pub code: u8,
    pub rest: &'a [u8],
    ghost fits: { at + 3 + length rest.now < 2 ^ 64 },
}
