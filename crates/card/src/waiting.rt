// The events that wait, each by the lengths of its twelve records.
use std::marker::Model;

pub(crate) mod queue;

// The most events that can wait.
pub(crate) const MOST: usize = 255;

// A ring: the oldest event stands at `head`. A card is a value of fixed size, with no memory of a heap to keep it in.
#[derive(Drop)]
pub(crate) struct Waiting {
    rows: [[u16; 12]; MOST],
    head: usize,
    count: usize,
}

// Clauses see the events, oldest first.
impl Model for Waiting {
    ghost use Rattle.std.specs.Prelude.{ℕ, List};

    ghost Value = { List (List ℕ) };

    ghost use Rattle.card.specs.Queue.{queued, IsInRing};

    ghost view = { queued };

    ghost invariant = { IsInRing };
}
