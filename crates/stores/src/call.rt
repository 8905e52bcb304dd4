// The calls of a store and their answers as values.
use terms::Refusal;

// One call of a store.
#[derive(Clone, Copy, Debug, PartialEq, Eq)]
pub enum StoreCall {
    // A byte put on a fibre.
    Put(usize, u8),
    // The oldest byte of a fibre taken.
    Take(usize),
    // How many bytes wait on a fibre.
    Level(usize),
    // How many bytes may wait on a fibre.
    Capacity,
    // All lists emptied.
    Clear,
}

// What a call of a store that was not refused answered.
#[derive(Clone, Copy, Debug, PartialEq, Eq)]
pub enum StoreReply {
    // Put and Clear that were carried out.
    Done,
    // The byte that was taken.
    Byte(u8),
    // A level or the capacity.
    Count(usize),
}

// What a call of a store answered: a reply, or the first question answered no.
pub type StoreAnswer = Result<StoreReply, Refusal>;
