// What keeps a limit of the call script.
ghost use Rattle.std.specs.Prelude.{ℕ, ◌≤◌, vec_len};

// A number up to a limit.
#[derive(Clone, Copy)]
pub struct UpTo<const MOST: u32> {
    pub number: u32,
    ghost within: { number ≤ MOST },
}

// The values of an estimate.
#[derive(Drop)]
pub struct Values {
    pub list: Vec<u16>,
    ghost few: { vec_len list ≤ 1000 },
}
