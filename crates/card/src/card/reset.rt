// Reset: the card starts afresh, with its settings.
ghost use Rattle.std.specs.Prelude.{◌≡◌};
ghost use Rattle.card_model.specs.Calls.{reset as the_reset};
ghost use Rattle.card.specs.Held.{CallStepped, CallKeepsLaws};
ghost use Rattle.card.specs.Steps.{said_reset};

use super::Card;
use rules::Rule;
use stores::Store;
use terms::Refusal;

impl<R: Rule + Drop, S: Store + Drop> Card<R, S> {
    // Is no slip out? 8. Tickers start again, a capture ends, and all that waits is gone.
    pub fn reset(&mut self) -> Result<(), Refusal>
        ensures step { CallStepped R.meaning self.old the_reset self.new (said_reset result) }
        ensures rule { self.new.rule ≡ self.old.rule }
        ensures laws { CallKeepsLaws R.meaning self.old the_reset }
    {
        if self.core.slip_out {
            return Err(Refusal::SlipOut);
        }
        self.core.restart();
        self.store.clear();
        Ok(())
    }
}
