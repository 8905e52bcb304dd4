// The chips of a card as a word of 24 bits: bit 2f for the left chip of fibre f, 2f + 1 for the right
// one.
ghost use Rattle.std.specs.Prelude.{◌≡◌, count_ones};
ghost use Rattle.synch.specs.Vote.{holds, count, chip_bits, chip_word};

use crate::bit::Bit;
use crate::standing::Standing;
use terms::Side;

// What is asked of each enabled chip. It is no closure, since the definition of a vote counts by question:
// the contract would have to say of a closure which question it asks.
#[derive(Clone, Copy)]
pub enum Question {
    // Is its fibre in lock?
    InLock,
    // Is its fibre in step? Such a chip votes.
    InStep,
    // Does it vote for a 1 as this bit of the header?
    HeaderBit(Bit),
}

// The enabled chips that answer yes.
pub(crate) fn chips(fibres: &[Standing; 12], question: Question) -> u32
    ensures word { result ≡ chip_word question fibres.now }
    ensures counted { count_ones result ≡ count question fibres.now }
{
    let mut word = 0;
    for fibre in fibres.iter().rev() {
        word = 4 * word + chip_bits(fibre, question);
    }
    word
}

// The answers of one fibre: bit 0 for its left chip, bit 1 for its right one.
fn chip_bits(fibre: &Standing, question: Question) -> u32
    ensures { result ≡ chip_bits question fibre.now }
{
    u32::from(holds(fibre, question, Side::Left))
        + 2 * u32::from(holds(fibre, question, Side::Right))
}

// The answer of one chip.
fn holds(fibre: &Standing, question: Question, side: Side) -> bool
    ensures { result ≡ holds question fibre.now side }
{
    match question {
        Question::InLock => fibre.in_lock && fibre.enable.has(side),
        Question::InStep => fibre.votes(side),
        Question::HeaderBit(bit) => {
            fibre.votes(side) && (fibre.header.bytes.of(side) >> bit.place) % 2 == 1
        }
    }
}
