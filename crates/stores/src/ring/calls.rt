// A ring as a store.
ghost use Rattle.std.specs.Prelude.{◌≡◌, min, length};
ghost use Rattle.stores.specs.Cells.{byte_cell, word_cell};
ghost use Rattle.stores.specs.Places.{lists_in};
ghost use Rattle.stores.specs.Sound.{rings_sound};
ghost use Rattle.stores.specs.Store.{empty_lists, largest, byte_capacity, word_capacity};

use super::{ByteRing, Ring, WordRing};
use crate::index::Index;
use crate::memory::Memory;
use crate::store::Store;
use terms::Refusal;

impl<'a> Ring<&'a mut [u8]> {
    // An empty store over lent bytes, whatever they hold: a twelfth of them for each fibre, 2,048 at most.
    pub fn new(memory: &'a mut [u8]) -> ByteRing<'a>
        ensures lists { lists_in result.index (byte_cell result.memory.now) ≡ empty_lists }
        ensures room { result.index.capacity ≡ byte_capacity (length memory.old) }
    {
        Ring::over(memory)
    }
}

impl<'a> Ring<&'a mut [u32]> {
    // An empty store over lent words, whatever they hold: four times a twelfth of them for each fibre, 2,048 at most.
    pub fn new(memory: &'a mut [u32]) -> WordRing<'a>
        ensures lists { lists_in result.index (word_cell result.memory.now) ≡ empty_lists }
        ensures room { result.index.capacity ≡ word_capacity (length memory.old) }
    {
        Ring::over(memory)
    }
}

impl<M: Memory> Ring<M> {
    // An empty store over memory, whatever it holds: a share of it for each fibre, 2,048 at most.
    fn over(memory: M) -> Ring<M>
        ensures lists { lists_in result.index (M.cells result.memory) ≡ empty_lists }
        ensures room { result.index.capacity ≡ min (M.share memory) largest }
    {
        let index = Index::new(memory.share());
        Ring { index, memory }
    }
}

impl<M: Memory> Store for Ring<M> {
    ghost lists = { λ s. lists_in s.index (M.cells s.memory) };

    ghost room = { λ s. s.index.capacity };

    ghost sound = { λ s. rings_sound s.index (M.cells s.memory) (M.small s.memory) };

    fn put(&mut self, fibre: usize, byte: u8) -> Result<(), Refusal> {
        let stretch = self.index.room_for(fibre, 1)?;
        self.memory.set(stretch.place, byte);
        Ok(())
    }

    fn take(&mut self, fibre: usize) -> Result<u8, Refusal> {
        let stretch = self.index.give_up(fibre, 1)?;
        Ok(self.memory.get(stretch.place))
    }

    fn level(&self, fibre: usize) -> Result<usize, Refusal> {
        self.index.level(fibre)
    }

    fn capacity(&self) -> usize {
        self.index.capacity()
    }

    fn clear(&mut self) {
        self.index.clear();
    }

    // In two pieces: by the trait's own body, byte by byte, a record takes more than twenty times as long.
    fn put_all(&mut self, fibre: usize, bytes: &[u8]) -> Result<(), Refusal> {
        let stretch = self.index.room_for(fibre, bytes.len())?;
        self.memory.lay(stretch, bytes);
        Ok(())
    }

    fn take_all(&mut self, fibre: usize, out: &mut [u8]) -> Result<(), Refusal> {
        let stretch = self.index.give_up(fibre, out.len())?;
        self.memory.pick(stretch, out);
        Ok(())
    }
}
