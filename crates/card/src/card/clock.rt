// Clock: twelve samples, one of each fibre.
ghost use Rattle.std.specs.Prelude.{◌≡◌};
ghost use Rattle.card_model.specs.Calls.{clock as the_clock};
ghost use Rattle.card.specs.Held.{CallStepped, CallKeepsLaws};
ghost use Rattle.card.specs.Steps.{said_clock};

use super::Card;
use crate::clocked::Clocked;
use crate::samples::read_samples;
use crate::tick::tick;
use rules::Rule;
use stores::Store;
use terms::Refusal;

impl<R: Rule + Drop, S: Store + Drop> Card<R, S> {
    // Are all samples up to 1023? 7, with the lowest fibre whose sample is not.
    pub fn clock(&mut self, samples: &[u16; 12]) -> Result<Clocked, Refusal>
        ensures step { CallStepped R.meaning self.old (the_clock samples.now)
            self.new (said_clock result) }
        ensures rule { self.new.rule ≡ self.old.rule }
        ensures laws { CallKeepsLaws R.meaning self.old (the_clock samples.now) }
    {
        let capture = self.core.capture;
        let samples = read_samples(samples)?;
        let pulses = tick(&self.core.settings, &mut self.core.tickers, &samples);
        match capture {
            None => {
                self.core.seek(pulses);
                Ok(Clocked::Quiet)
            }
            Some(capture) => Ok(
                self.core
                    .go_on(&self.rule, &mut self.store, capture, &samples),
            ),
        }
    }
}
