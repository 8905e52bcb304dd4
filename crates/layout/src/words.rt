// The words of a raw record: one for each strip, at most 1023.
ghost use Rattle.std.specs.Prelude.{◌≡◌, ℕ, true, length};
ghost use Rattle.layout.specs.Limits.{at_most};

use terms::STRIPS;

mod calls;
mod write;

#[derive(Clone, Copy)]
pub struct Words {
    list: [u16; STRIPS],
    ghost all: { length list ≡ 256 },
    ghost ten_bits: { at_most 1023 list ≡ true },
}
