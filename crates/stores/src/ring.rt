// A store over memory: a ring of each fibre's bytes.
ghost use Rattle.std.specs.Prelude.{◌*◌, ◌≤◌};

use crate::index::Index;
use crate::memory::Memory;

pub mod calls;

#[derive(Drop)]
pub struct Ring<M: Memory> {
    index: Index,
    memory: M,
    ghost fits: { 12 * index.capacity ≤ M.places memory },
}

// Rings over lent bytes, and over lent words of four bytes.
pub type ByteRing<'a> = Ring<&'a mut [u8]>;

pub type WordRing<'a> = Ring<&'a mut [u32]>;
