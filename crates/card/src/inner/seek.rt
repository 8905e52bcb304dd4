// Where no capture runs: does an event begin?
ghost use Rattle.std.specs.Prelude.{◌≡◌, None};
ghost use Rattle.card_model.specs.Clock.{sought};
ghost use Rattle.card.specs.Abstraction.{watches_in, StateGoes};

use super::Core;
use crate::capture::Capture;
use crate::standings::{none_pulses, standings};
use synch::event_begins;

// The position of the first Clock of a capture.
pub(crate) const FIRST: usize = 6;

impl Core {
    // A capture begins if the fibres that pulse are a majority; they are in step with it.
    pub(crate) fn seek(&mut self, pulses: [bool; 12])
        requires { self.old.capture ≡ None }
        ensures { StateGoes (λ s. (sought s (watches_in self.old.tickers) pulses).next_card)
            self.old self.new }
    {
        if none_pulses(&pulses) {
            return;
        }
        let fibres = standings(&self.settings, &self.tickers, &pulses);
        if event_begins(&fibres) {
            self.capture = Some(Capture {
                position: FIRST,
                in_step: pulses,
            });
        }
    }
}
