// What a store means: twelve lists of waiting bytes, oldest first, and one capacity.
ghost use Rattle.std.specs.Prelude.{◌≡◌, ℕ, List, [], ◌∷◌, length, take, is_ok, if◌then◌else◌, Ok};
ghost use Rattle.stores.specs.Store.{waiting, level_of, oldest, appended, without, empty_lists, Sound, fibre_question, put_questions, take_questions, answering};

use terms::Refusal;

pub trait Store {
    // What waits on each fibre, oldest first.
    ghost lists: { Self → List (List ℕ) };

    // The capacity: how many bytes may wait on a fibre.
    ghost room: { Self → ℕ };

    // Appends a byte to a fibre's list: the fibre? 3. Is its list below the capacity? 12.
    fn put(&mut self, fibre: usize, byte: u8) -> Result<(), Refusal>
        ensures answer { result ≡ put_questions (room self.old) (level_of (lists self.old) fibre) fibre 1 }
        ensures lists { lists self.new
            ≡ (if is_ok result then appended (lists self.old) fibre (byte ∷ []) else lists self.old) }
        ensures room { room self.new ≡ room self.old };

    // Removes the oldest byte of a fibre and answers it: the fibre? 3. Is a byte waiting? 13.
    fn take(&mut self, fibre: usize) -> Result<u8, Refusal>
        ensures answer { result
            ≡ answering (take_questions (level_of (lists self.old) fibre) fibre 1) (oldest (lists self.old) fibre) }
        ensures lists { lists self.new
            ≡ (if is_ok result then without (lists self.old) fibre 1 else lists self.old) }
        ensures room { room self.new ≡ room self.old };

    // How many bytes wait on a fibre: the fibre? 3.
    fn level(&self, fibre: usize) -> Result<usize, Refusal>
        ensures { result ≡ fibre_question fibre (Ok (level_of (lists self.now) fibre)) };

    // How many bytes may wait on a fibre.
    fn capacity(&self) -> usize
        ensures { result ≡ room self.now };

    // Empties all lists.
    fn clear(&mut self)
        ensures lists { lists self.new ≡ empty_lists }
        ensures room { room self.new ≡ room self.old };

    // Appends a whole record to a fibre's list: the fibre? 3. Do all its bytes fit? 12.
    fn put_all(&mut self, fibre: usize, bytes: &[u8]) -> Result<(), Refusal>
        ensures answer { result
            ≡ put_questions (room self.old) (level_of (lists self.old) fibre) fibre (length bytes.now) }
        ensures lists { lists self.new
            ≡ (if is_ok result then appended (lists self.old) fibre bytes.now else lists self.old) }
        ensures room { room self.new ≡ room self.old }
    {
        let level = self.level(fibre)?;
        if bytes.len() > self.capacity() - level {
            return Err(Refusal::StoreFull);
        }
        for byte in bytes {
            self.put(fibre, *byte)?;
        }
        Ok(())
    }

    // Removes as many of the oldest bytes of a fibre as `out` is long, into it: the fibre? 3. Do so many wait? 13.
    fn take_all(&mut self, fibre: usize, out: &mut [u8]) -> Result<(), Refusal>
        ensures answer { result
            ≡ take_questions (level_of (lists self.old) fibre) fibre (length out.old) }
        ensures lists { lists self.new
            ≡ (if is_ok result then without (lists self.old) fibre (length out.old) else lists self.old) }
        ensures out { out.new
            ≡ (if is_ok result then take (length out.old) (waiting (lists self.old) fibre) else out.old) }
        ensures room { room self.new ≡ room self.old }
    {
        if out.len() > self.level(fibre)? {
            return Err(Refusal::StoreEmpty);
        }
        for slot in out.iter_mut() {
            *slot = self.take(fibre)?;
        }
        Ok(())
    }

    // What holds of every store.
    ghost sound: { (s : Self) → Sound (room s) (lists s) };
}
