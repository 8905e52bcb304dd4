// Stores over memory of their own. A ring borrows its memory, and a program makes and lets go of stores as its user
// likes; so each has memory of its own, which is kept to the end of the program.
use std::alloc::{AllocError, Global};
use stores::{ByteRing, Store, WordRing};

// A ring has use for no more bytes than these: 2,048 for each of twelve fibres.
const MOST_BYTES: usize = 24_576;

// A store that is made over lent memory.
pub trait LentStore: Store {
    type Memory: Drop;

    // So many bytes or words, or as many as a ring has use for.
    fn memory(heap: Global, size: usize) -> Result<Self::Memory, AllocError>;

    // An empty store over lent memory.
    fn over(memory: Self::Memory) -> Self;
}

// So many zeros, kept to the end of the program.
fn kept<'a, T: Copy + Default + 'a>(heap: Global, size: usize) -> Result<&'a mut [T], AllocError> {
    let zeros = vec![in heap; T::default(); size]?;
    let kept = Box::leak(Box::new(heap, zeros)?);
    Ok(kept.as_mut_slice())
}

// An impl for each ring: one for both would name the trait of their memory, private to stores.
impl<'a> LentStore for ByteRing<'a> {
    type Memory = &'a mut [u8];

    fn memory(heap: Global, size: usize) -> Result<&'a mut [u8], AllocError> {
        kept(heap, size.min(MOST_BYTES))
    }

    fn over(memory: &'a mut [u8]) -> ByteRing<'a> {
        ByteRing::new(memory)
    }
}

impl<'a> LentStore for WordRing<'a> {
    type Memory = &'a mut [u32];

    fn memory(heap: Global, size: usize) -> Result<&'a mut [u32], AllocError> {
        kept(heap, size.min(MOST_BYTES / 4))
    }

    fn over(memory: &'a mut [u32]) -> WordRing<'a> {
        WordRing::new(memory)
    }
}
