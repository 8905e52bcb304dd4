// What a Clock that is carried out brings.
ghost use Rattle.std.specs.Prelude.{◌≡◌};
ghost use Rattle.card_model.specs.Calls.{loss_number, loss_named};
ghost use Rattle.card.specs.Steps.{loss_in};

use synch::Synch;

// Why a completed event is lost.
#[derive(Clone, Copy)]
pub enum Loss {
    // As many events wait as can.
    TooMany,
    // The record of this fibre, and of no lower one, exceeds the free room.
    NoRoom(usize),
}

#[derive(Clone, Copy)]
pub enum Clocked {
    Quiet,
    // The header of the event, and how each fibre stands.
    Synch(Synch),
    // An event is complete and kept; its length.
    Kept(usize),
    // An event is complete and lost.
    Lost(Loss),
}

impl Loss {
    // The number by which the card's manual knows the loss.
    // No From: the number leaves out the fibre, which is named beside it.
    pub fn number(self) -> u8
        ensures { result ≡ loss_number (loss_in self) }
    {
        match self {
            Loss::TooMany => 14,
            Loss::NoRoom(_) => 15,
        }
    }

    // What stands beside the number: a fibre.
    pub fn named(self) -> Option<usize>
        ensures { result ≡ loss_named (loss_in self) }
    {
        match self {
            Loss::TooMany => None,
            Loss::NoRoom(fibre) => Some(fibre),
        }
    }
}
