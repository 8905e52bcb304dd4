// Memory as a row of places that hold a byte each.
ghost use Rattle.std.specs.Prelude.{◌≡◌, ℕ, ◌+◌, ◌*◌, ◌^◌, ◌<◌, ◌≤◌, length};
ghost use Rattle.stores.specs.Cells.{Written, Filled, Holds, Laid, Picked};

use crate::stretch::Stretch;

pub mod bytes;
pub mod words;

pub trait Memory {
    // The byte at each place.
    ghost cells: { Self → ℕ → ℕ };

    // How many places there are.
    ghost places: { Self → ℕ };

    // How many of them each of twelve rings may have.
    ghost share: { Self → ℕ };

    // How many places each of twelve rings may have.
    fn share(&self) -> usize
        ensures { result ≡ share self.now };

    // The byte at a place.
    fn get(&self, place: usize) -> u8
        requires { place < places self.now }
        ensures { result ≡ cells self.now place };

    // Writes a byte at a place.
    fn set(&mut self, place: usize, byte: u8)
        requires { place < places self.old }
        ensures cells { Written (cells self.old) (cells self.new) place byte }
        ensures places { places self.new ≡ places self.old };

    // Writes bytes from a place on.
    fn fill(&mut self, place: usize, bytes: &[u8])
        requires inside { place + length bytes.now ≤ places self.old }
        requires counted { place + length bytes.now < 2 ^ 64 }
        ensures cells { Filled (cells self.old) (cells self.new) place bytes.now }
        ensures places { places self.new ≡ places self.old }
    {
        for (i, byte) in bytes.iter().enumerate() {
            self.set(place + i, *byte);
        }
    }

    // Reads bytes from a place on.
    fn read(&self, place: usize, out: &mut [u8])
        requires inside { place + length out.old ≤ places self.now }
        requires counted { place + length out.old < 2 ^ 64 }
        ensures bytes { Holds (cells self.now) place out.new }
        ensures long { length out.new ≡ length out.old }
    {
        for (i, slot) in out.iter_mut().enumerate() {
            *slot = self.get(place + i);
        }
    }

    // Lays bytes into a stretch of a ring: two pieces at most.
    fn lay(&mut self, stretch: Stretch, bytes: &[u8])
        requires ring { stretch.end ≤ places self.old }
        requires bytes { stretch.first + length bytes.now ≤ stretch.end }
        ensures cells { Laid (cells self.old) (cells self.new) stretch.first stretch.end stretch.place
            bytes.now }
        ensures places { places self.new ≡ places self.old }
    {
        let (before, after) = bytes.split_at(stretch.before_end(bytes.len()));
        self.fill(stretch.place, before);
        self.fill(stretch.first, after);
    }

    // Fills `out` from a stretch of a ring: two pieces at most.
    fn pick(&self, stretch: Stretch, out: &mut [u8])
        requires ring { stretch.end ≤ places self.now }
        requires bytes { stretch.first + length out.old ≤ stretch.end }
        ensures cells { Picked (cells self.now) stretch.first stretch.end stretch.place out.new }
        ensures long { length out.new ≡ length out.old }
    {
        let (before, after) = out.split_at_mut(stretch.before_end(out.len()));
        self.read(stretch.place, before);
        self.read(stretch.first, after);
    }

    // Each place holds a byte.
    ghost small: { (m : Self) (p : ℕ) → cells m p < 256 };

    // Twelve rings have places enough.
    ghost enough: { (m : Self) → 12 * share m ≤ places m };
}
