// Where the bytes of twelve rings of one capacity lie, whatever memory holds them.
ghost use Rattle.std.specs.Prelude.{◌≡◌, ℕ, ◌-◌, ◌≤◌, length};
ghost use Rattle.stores.specs.Queues.{queue_at};

use crate::queue::Queue;
use terms::FIBRES;

pub mod rings;

#[derive(Drop)]
pub struct Index {
    capacity: usize,
    queues: [Queue; FIBRES],
    ghost twelve: { length queues ≡ 12 },
    ghost limit: { capacity ≤ 2048 },
    ghost starts: { (f : ℕ) → (queue_at queues f).start ≤ capacity - 1 },
    ghost levels: { (f : ℕ) → (queue_at queues f).level ≤ capacity },
}
