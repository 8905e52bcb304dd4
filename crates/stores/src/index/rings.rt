// What is asked about the rings and what changes in them.
ghost use Rattle.std.specs.Prelude.{◌≡◌, ℕ, ◌+◌, ◌*◌, ◌<◌, ◌≤◌, min, Ok};
ghost use Rattle.stores.specs.Places.{lists_in, queue_of, wrapped, RoomFor, Oldest};
ghost use Rattle.stores.specs.Store.{level_of, empty_lists, largest, fibre_question};

use super::Index;
use crate::queue::Queue;
use crate::stretch::Stretch;
use terms::{FIBRES, Refusal};

// The largest capacity.
const LARGEST: usize = 2048;

// No byte waits.
const NO_BYTE: Queue = Queue { start: 0, level: 0 };

impl Index {
    // Twelve empty rings of a capacity, of 2,048 if that is larger.
    pub(crate) fn new(capacity: usize) -> Index
        ensures lists { (cells : ℕ → ℕ) → lists_in result cells ≡ empty_lists }
        ensures room { result.capacity ≡ min capacity largest }
    {
        Index {
            capacity: capacity.min(LARGEST),
            queues: [NO_BYTE; FIBRES],
        }
    }

    pub(crate) fn capacity(&self) -> usize
        ensures { result ≡ self.now.capacity }
    {
        self.capacity
    }

    // The bytes of a fibre in its ring: the fibre? 3.
    fn queue(&self, fibre: usize) -> Result<Queue, Refusal>
        ensures { result ≡ fibre_question fibre (Ok (queue_of self.now fibre)) }
    {
        self.queues.get(fibre).copied().ok_or(Refusal::NoSuchFibre)
    }

    // A place of a ring, counted from its first place, where one round at most was passed.
    fn wrapped(&self, place: usize) -> usize
        ensures { result ≡ wrapped self.now.capacity place }
    {
        if place < self.capacity {
            place
        } else {
            place - self.capacity
        }
    }

    // The stretch of a fibre's ring from a place of the ring on.
    fn stretch(&self, fibre: usize, within: usize) -> Stretch
        requires fibre { fibre < 12 }
        requires within { within ≤ self.now.capacity }
        ensures first { result.first ≡ fibre * self.now.capacity }
        ensures end { result.end ≡ fibre * self.now.capacity + self.now.capacity }
        ensures place { result.place ≡ fibre * self.now.capacity + within }
    {
        let first = fibre * self.capacity;
        Stretch {
            first,
            end: first + self.capacity,
            place: first + within,
        }
    }

    // Makes room for `count` bytes on a fibre, and answers where they go.
    pub(crate) fn room_for(&mut self, fibre: usize, count: usize) -> Result<Stretch, Refusal>
        ensures { RoomFor self.old self.new fibre count result }
    {
        let Queue { start, level } = self.queue(fibre)?;
        if count > self.capacity - level {
            return Err(Refusal::StoreFull);
        }
        self.queues[fibre] = Queue {
            start,
            level: level + count,
        };
        Ok(self.stretch(fibre, self.wrapped(start + level)))
    }

    // Gives up the `count` oldest bytes of a fibre, and answers where they lie.
    pub(crate) fn give_up(&mut self, fibre: usize, count: usize) -> Result<Stretch, Refusal>
        ensures { Oldest self.old self.new fibre count result }
    {
        let Queue { start, level } = self.queue(fibre)?;
        if count > level {
            return Err(Refusal::StoreEmpty);
        }
        self.queues[fibre] = Queue {
            start: self.wrapped(start + count),
            level: level - count,
        };
        Ok(self.stretch(fibre, start))
    }

    // How many bytes wait on a fibre.
    pub(crate) fn level(&self, fibre: usize) -> Result<usize, Refusal>
        ensures { (cells : ℕ → ℕ)
            → result ≡ fibre_question fibre (Ok (level_of (lists_in self.now cells) fibre)) }
    {
        Ok(self.queue(fibre)?.level)
    }

    // Empties all rings.
    pub(crate) fn clear(&mut self)
        ensures lists { (cells : ℕ → ℕ) → lists_in self.new cells ≡ empty_lists }
        ensures room { self.new.capacity ≡ self.old.capacity }
    {
        self.queues = [NO_BYTE; FIBRES];
    }
}
