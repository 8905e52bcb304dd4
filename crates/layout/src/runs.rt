// Where the clusters of one fibre lie, in strip order.
ghost use Rattle.std.specs.Prelude.{◌≡◌, true};
ghost use Rattle.layout.specs.Places.{spaced};
ghost use Rattle.layout.specs.Limits.{on_fibre};

use crate::run::Run;
use arrayvec::ArrayVec;

mod calls;

// The most clusters that a fibre can have: 43 a chip, each of one strip, two strips apart.
pub const MOST: usize = 86;

#[derive(Drop)]
pub struct Runs {
    list: ArrayVec<Run, MOST>,
    ghost in_order: { spaced list.items ≡ true },
    ghost on_strips: { on_fibre list.items ≡ true },
}
