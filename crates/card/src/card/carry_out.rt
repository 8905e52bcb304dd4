// Lists of calls, carried out call by call.
ghost use Rattle.std.specs.Prelude.{◌≡◌, ◌+◌, ◌≤◌, length};
ghost use Rattle.card.specs.Carrying.{lent_to, carry_questions};
ghost use Rattle.card.specs.Held.{CallAnswered, CallsCarriedOut, CallsKeepLaws};

use super::Card;
use crate::answer::Answer;
use crate::call::{Call, lent_enough};
use crate::slip::Slip;
use rules::Rule;
use stores::Store;
use terms::Refusal;

impl<R: Rule + Drop, S: Store + Drop> Card<R, S> {
    // Carries out a Fetch into a part of the bytes, with a slip of its own.
    // All bytes and a place, here and below, and no slice from there on: the answer names the place.
    fn answer_fetch(&mut self, long: usize, bytes: &mut [u8], at: usize) -> Result<Answer, Refusal>
        requires { at + long ≤ length bytes.old }
        ensures step { CallAnswered R.meaning self.old (Call.Fetch long) at bytes.old
            self.new result bytes.new }
        ensures rule { self.new.rule ≡ self.old.rule }
    {
        let end = at + long;
        let length = self
            .fetch(Slip::new(0), &mut bytes[at..end])
            .map_err(|refused| refused.spend())?;
        Ok(Answer::Fetched { at, length })
    }

    // Carries out a call. A Fetch is lent its part of the bytes, from a place on.
    fn answer(&mut self, call: Call, bytes: &mut [u8], at: usize) -> Result<Answer, Refusal>
        requires { at + lent_to call ≤ length bytes.old }
        ensures step { CallAnswered R.meaning self.old call at bytes.old self.new result bytes.new }
        ensures rule { self.new.rule ≡ self.old.rule }
    {
        match call {
            Call::Load(word) => {
                self.load(word)?;
                Ok(Answer::Taken)
            }
            Call::Clock(samples) => {
                let clocked = self.clock(&samples)?;
                Ok(Answer::Clocked(clocked))
            }
            Call::Ask => {
                let slip = self.ask()?;
                let length = slip.length();
                slip.spend();
                Ok(Answer::Slip(length))
            }
            Call::Fetch(long) => self.answer_fetch(long, bytes, at),
            Call::GiveBack => {
                self.give_back(Slip::new(0))
                    .map_err(|refused| refused.spend())?;
                Ok(Answer::GivenBack)
            }
            Call::Level(fibre) => {
                let level = self.level(fibre)?;
                Ok(Answer::Level(level))
            }
            Call::Reset => {
                self.reset()?;
                Ok(Answer::WasReset)
            }
        }
    }

    // Carries out a list of calls, and writes what each is answered into a lent row: is it long enough? 11, with
    // the number of calls. Each Fetch is lent as many of the bytes as its buffer is long, one behind the other: are
    // there so many? 11, with their number. A refusal changes nothing.
    // The row is lent, and filled from the front: a card has no heap to make one in.
    pub fn carry_out(
        &mut self,
        calls: &[Call],
        answers: &mut [Result<Answer, Refusal>],
        bytes: &mut [u8],
    ) -> Result<(), Refusal>
        ensures answer { result ≡ carry_questions calls.now (length answers.old) (length bytes.old) }
        ensures run { CallsCarriedOut R.meaning self.old calls.now answers.old bytes.old
            self.new answers.new bytes.new result }
        ensures rule { self.new.rule ≡ self.old.rule }
        ensures laws { CallsKeepLaws R.meaning self.old calls.now }
    {
        // Opens the card: that the laws hold rests on the capacity of its store.
        let _ = &self.core;
        if answers.len() < calls.len() {
            return Err(Refusal::BufferTooShort(calls.len()));
        }
        lent_enough(calls, bytes.len())?;
        let mut at = 0;
        // Calls and answers by one index: a zip tells the proof nothing of what is written through its pairs.
        for (i, call) in calls.iter().enumerate() {
            answers[i] = self.answer(*call, bytes, at);
            // A place kept by hand: the answer names it, and a slice of what is left would not.
            at += call.lent();
        }
        Ok(())
    }
}
