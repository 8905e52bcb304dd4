// The cards of a script: two places, the slips that were given, and the bytes that were fetched last.
use crate::answers::Answers;
use crate::failure::Failure;
use call_script::{CardCall, Memory};
use chosen::ChosenRule;
use std::alloc::Global;
use std::io::Write;

#[derive(Drop)]
pub struct Cards {
    fetched: Option<Vec<u8>>,
}

impl Cards {
    // Two places without a card.
    pub(crate) fn new() -> Cards {
        Cards { fetched: None }
    }

    // Makes a new card in the current place.
    pub(crate) fn renew<O: Write>(
        &mut self,
        _answers: &mut Answers<'_, O>,
        _heap: Global,
        _memory: Memory,
        _rule: ChosenRule,
    ) -> Result<(), Failure> {
        Err(Failure::NoCards)
    }

    // Makes the other place the current one.
    pub(crate) fn swap<O: Write>(&mut self, answers: &mut Answers<'_, O>) -> Result<(), Failure> {
        answers.print("swapped")
    }

    // Makes a call of the current card, and prints what it answered.
    pub(crate) fn answer<O: Write>(
        &mut self,
        answers: &mut Answers<'_, O>,
        _call: CardCall,
    ) -> Result<(), Failure> {
        answers.print("no card")
    }

    // The bytes of the last Fetch that was carried out.
    pub(crate) fn last_fetched(&self) -> Option<&[u8]> {
        self.fetched.as_deref()
    }
}
