// A store by itself.
use crate::answers::Answers;
use crate::failure::Failure;
use call_script::Memory;
use chosen::LentStore;
use std::alloc::{AllocError, Global};
use std::io::Write;
use stores::{StoreAnswer, StoreCall, StoreReply, carry_out};

// The store that a script has made last: a ring of bytes or of words. The rings are type parameters, since an enum
// of structs that lend memory and keep facts of it gets no proof.
#[derive(Drop)]
pub enum HeldStore<B: LentStore, W: LentStore> {
    Bytes(B),
    Words(W),
}

impl<B: LentStore + Drop, W: LentStore + Drop> HeldStore<B, W> {
    // A new store, of a ring's capacity.
    pub(crate) fn new(heap: Global, memory: Memory) -> Result<HeldStore<B, W>, AllocError> {
        match memory {
            Memory::Bytes(size) => {
                let lent = B::memory(heap, size.number as usize)?;
                Ok(HeldStore::Bytes(B::over(lent)))
            }
            Memory::Words(size) => {
                let lent = W::memory(heap, size.number as usize)?;
                Ok(HeldStore::Words(W::over(lent)))
            }
        }
    }

    fn carry_out(&mut self, call: StoreCall) -> StoreAnswer {
        match self {
            HeldStore::Bytes(ring) => carry_out(ring, call),
            HeldStore::Words(ring) => carry_out(ring, call),
        }
    }

    // Carries out a call, and prints what it answered.
    pub(crate) fn answer<O: Write>(
        &mut self,
        answers: &mut Answers<'_, O>,
        call: StoreCall,
    ) -> Result<(), Failure> {
        match (self.carry_out(call), call) {
            (Err(refusal), _) => answers.refuse(refusal),
            (Ok(StoreReply::Byte(byte)), _) => answers.print(format_args!("took {byte:02X}")),
            (Ok(StoreReply::Count(count)), StoreCall::Capacity) => {
                answers.print(format_args!("capacity {count}"))
            }
            (Ok(StoreReply::Count(count)), _) => answers.print(format_args!("count {count}")),
            (Ok(StoreReply::Done), StoreCall::Clear) => answers.print("cleared"),
            (Ok(StoreReply::Done), _) => answers.print("put"),
        }
    }

    // How many bytes may wait on a fibre.
    pub(crate) fn capacity(&self) -> usize {
        match self {
            HeldStore::Bytes(ring) => ring.capacity(),
            HeldStore::Words(ring) => ring.capacity(),
        }
    }
}
