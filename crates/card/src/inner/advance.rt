// A Clock within a capture that is not its last.
ghost use Rattle.std.specs.Prelude.{◌≡◌, ℕ, ◌<◌, List};
ghost use Rattle.strips.specs.Fibre.{numbers};
ghost use Rattle.card_model.specs.Calls.{plain};
ghost use Rattle.card_model.specs.Clock.{standings as standings_of, within, within_answer};
ghost use Rattle.card.specs.Abstraction.{state_of, watches_in, rows_in, running};
ghost use Rattle.card.specs.Steps.{Leads, said_clocked};

use super::Core;
use crate::capture::Capture;
use crate::clocked::Clocked;
use crate::column::capture_samples;
use crate::standings::standings;
use strips::Sample;
use synch::Synch;

// The position of the last Clock of the header.
pub(crate) const SYNCH: usize = 23;

impl Core {
    // Takes the samples, if it is their turn, and goes on to the next position.
    pub(crate) fn advance(&mut self, capture: Capture, samples: &[Sample; 12]) -> Clocked
        requires { capture.position < 279 }
        ensures { (lists : List (List ℕ)) (room : ℕ) → Leads
            (within (state_of self.old lists room) (watches_in self.old.tickers)
            (running (rows_in self.old.rows) capture) (numbers samples.now))
            (state_of self.new lists room) (said_clocked result) }
    {
        capture_samples(&mut self.rows, capture.position, samples);
        let in_step = capture.in_step;
        self.capture = Some(Capture {
            position: capture.position + 1,
            in_step,
        });
        self.within(capture)
    }

    // What a Clock within a capture brings: the synch once the header is in, else nothing.
    fn within(&self, capture: Capture) -> Clocked
        ensures { said_clocked result
            ≡ plain (within_answer capture.position
            (standings_of self.now.settings (watches_in self.now.tickers) capture.in_step)) }
    {
        if capture.position != SYNCH {
            return Clocked::Quiet;
        }
        let fibres = standings(&self.settings, &self.tickers, &capture.in_step);
        Clocked::Synch(Synch::of(&fibres))
    }
}
