// The content of a zero-suppressed record. It owns its values, since a RecordKind's Content has no lifetime to lend by.
ghost use Rattle.std.specs.Prelude.{◌≡◌, ℕ, ◌≤◌, true, length};
ghost use Rattle.layout.specs.Limits.{at_most};

use crate::runs::Runs;
use terms::{Pair, STRIPS};

mod calls;
mod write;

#[derive(Drop)]
pub struct Suppressed {
    modes: Pair<u16>,
    values: [u8; STRIPS],
    runs: Runs,
    ghost left_fits: { modes.left ≤ 1023 },
    ghost right_fits: { modes.right ≤ 1023 },
    ghost all: { length values ≡ 256 },
    ghost bytes: { at_most 255 values ≡ true },
}
