// Lent bytes as memory, one byte to a place.
ghost use Rattle.std.specs.Prelude.{length};
ghost use Rattle.stores.specs.Cells.{byte_cell, byte_cell_small};
ghost use Rattle.stores.specs.Store.{byte_share, byte_share_enough};

use super::Memory;
use terms::FIBRES;

impl Memory for &mut [u8] {
    ghost cells = { λ m. byte_cell m.now };

    ghost places = { λ m. length m.now };

    ghost share = { λ m. byte_share (length m.now) };

    ghost small = { λ m p. byte_cell_small m.now p };

    ghost enough = { λ m. byte_share_enough (length m.now) };

    fn share(&self) -> usize {
        self.len() / FIBRES
    }

    fn get(&self, place: usize) -> u8 {
        self[place]
    }

    fn set(&mut self, place: usize, byte: u8) {
        self[place] = byte;
    }

    fn fill(&mut self, place: usize, bytes: &[u8]) {
        self[place..place + bytes.len()].copy_from_slice(bytes);
    }

    fn read(&self, place: usize, out: &mut [u8]) {
        out.copy_from_slice(&self[place..place + out.len()]);
    }
}
