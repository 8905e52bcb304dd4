// What a line of a call script asks for.
use crate::limits::{UpTo, Values};
use chosen::ChosenRule;
use stores::StoreCall;
use terms::FIBRES;

// The most bytes or words of a store.
pub const MOST_MEMORY: u32 = 1_000_000;
// The most Clocks of a line.
pub const MOST_CLOCKS: u32 = 100_000;
// The longest buffer of a Fetch.
pub const LONGEST_BUFFER: u32 = 100_000;

// The memory of a store: a ring of bytes or a ring of 32-bit words, over so many of them.
#[derive(Clone, Copy)]
pub enum Memory {
    Bytes(UpTo<MOST_MEMORY>),
    Words(UpTo<MOST_MEMORY>),
}

// A call of the current card.
#[derive(Clone, Copy)]
pub enum CardCall {
    Load(u32),
    // The same Clock so many times.
    Clock {
        times: UpTo<MOST_CLOCKS>,
        samples: [u16; FIBRES],
    },
    Ask,
    // A Fetch into a buffer of so many bytes.
    Fetch(UpTo<LONGEST_BUFFER>),
    GiveBack,
    Level(usize),
    Reset,
}

// A question on the current event.
#[derive(Clone, Copy)]
pub enum EventQuestion {
    Record(usize),
    Cluster { fibre: usize, index: usize },
}

#[derive(Drop)]
pub enum Command {
    // A new card in the current place.
    Card(Memory, ChosenRule),
    // The other place becomes the current one.
    Swap,
    OfCard(CardCall),
    // A new store by itself.
    Store(Memory),
    OfStore(StoreCall),
    // The rule that estimates are asked of.
    Rule(ChosenRule),
    // An estimate of a chip, with a rank setting and values.
    Estimate {
        chip: usize,
        setting: u8,
        values: Values,
    },
    // An event in these bytes.
    Unpack(Vec<u8>),
    // An event in the bytes that were fetched last.
    UnpackLast,
    OfEvent(EventQuestion),
}
