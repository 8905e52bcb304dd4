// Events come in at the back and go out at the front.
ghost use Rattle.std.specs.Prelude.{◌≡◌, ◌+◌, ◌<◌, ◌≤◌, [], ◌∷◌, ◌++◌, length, drop};
ghost use Rattle.card.specs.Queue.{round, first_in};

use super::{MOST, Waiting};

// A place of the ring, where one past its end stands for one from its start.
fn round(place: usize) -> usize
    requires { place < 510 }
    ensures place { result ≡ round place }
    ensures inside { result < 255 }
{
    if place < MOST { place } else { place - MOST }
}

impl Waiting {
    pub(crate) fn new() -> Waiting
        ensures { result ≡ [] }
    {
        Waiting {
            rows: [[0; 12]; MOST],
            head: 0,
            count: 0,
        }
    }

    pub(crate) fn len(&self) -> usize
        ensures count { result ≡ length self.now }
        ensures few { result ≤ 255 }
    {
        self.count
    }

    // The oldest event.
    pub(crate) fn front(&self) -> Option<[u16; 12]>
        ensures { result ≡ first_in self.now }
    {
        if self.count == 0 {
            None
        } else {
            Some(self.rows[self.head])
        }
    }

    pub(crate) fn push_back(&mut self, lengths: [u16; 12])
        requires { length self.old < 255 }
        ensures { self.new ≡ self.old ++ lengths ∷ [] }
    {
        let place = round(self.head + self.count);
        self.rows[place] = lengths;
        self.count += 1;
    }

    // Lets the oldest event go, if one waits.
    pub(crate) fn pop_front(&mut self)
        ensures { self.new ≡ drop 1 self.old }
    {
        if self.count > 0 {
            self.head = round(self.head + 1);
            self.count -= 1;
        }
    }

    pub(crate) fn clear(&mut self)
        ensures { self.new ≡ [] }
    {
        self.count = 0;
    }
}
