// Lent 32-bit words as memory, four places to a word.
ghost use Rattle.std.specs.Prelude.{◌*◌, length};
ghost use Rattle.stores.specs.Cells.{word_cell, word_cell_small};
ghost use Rattle.stores.specs.Store.{word_share, word_share_enough};

use super::Memory;
use crate::word::{byte_of, with_byte};
use terms::FIBRES;

impl Memory for &mut [u32] {
    ghost cells = { λ m. word_cell m.now };

    ghost places = { λ m. 4 * length m.now };

    ghost share = { λ m. word_share (length m.now) };

    ghost small = { λ m p. word_cell_small m.now p };

    ghost enough = { λ m. word_share_enough (length m.now) };

    fn share(&self) -> usize {
        4 * (self.len() / FIBRES)
    }

    fn get(&self, place: usize) -> u8 {
        byte_of(self[place / 4], place % 4)
    }

    fn set(&mut self, place: usize, byte: u8) {
        let at = place / 4;
        self[at] = with_byte(self[at], place % 4, byte);
    }
}
