// A Clock within a capture.
ghost use Rattle.std.specs.Prelude.{◌==◌};
ghost use Rattle.strips.specs.Fibre.{numbers};
ghost use Rattle.card_model.specs.Clock.{last_position, in_capture};
ghost use Rattle.card.specs.Abstraction.{state_in, watches_in, rows_in, running};
ghost use Rattle.card.specs.Steps.{Leads, said_clocked};

use super::Core;
use super::complete::LAST;
use crate::capture::Capture;
use crate::clocked::Clocked;
use rules::Rule;
use stores::Store;
use strips::Sample;

impl Core {
    // Goes on with a capture, or completes it.
    pub(crate) fn go_on<R: Rule, S: Store>(
        &mut self,
        rule: &R,
        store: &mut S,
        capture: Capture,
        samples: &[Sample; 12],
    ) -> Clocked
        ensures { Leads
            (in_capture (capture.position == last_position) (R.meaning rule.now)
            (state_in S.Store self.old store.old) (watches_in self.old.tickers)
            (running (rows_in self.old.rows) capture) (numbers samples.now))
            (state_in S.Store self.new store.new) (said_clocked result) }
    {
        if capture.position == LAST {
            self.complete(rule, store, samples)
        } else {
            self.advance(capture, samples)
        }
    }
}
