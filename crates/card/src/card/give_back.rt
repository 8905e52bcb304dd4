// Give back: the slip goes back, and its event waits on.
ghost use Rattle.std.specs.Prelude.{◌≡◌};
ghost use Rattle.card_model.specs.Calls.{give_back};
ghost use Rattle.card.specs.Held.{CallStepped, CallKeepsLaws};
ghost use Rattle.card.specs.Steps.{HandedBack, said_give_back};

use super::Card;
use crate::slip::{Refused, Slip};
use rules::Rule;
use stores::Store;
use terms::Refusal;

impl<R: Rule + Drop, S: Store + Drop> Card<R, S> {
    // Is a slip out? 10. A refusal hands the slip back.
    pub fn give_back(&mut self, slip: Slip) -> Result<(), Refused>
        ensures step { CallStepped R.meaning self.old give_back self.new (said_give_back result) }
        ensures slip { HandedBack slip result }
        ensures rule { self.new.rule ≡ self.old.rule }
        ensures laws { CallKeepsLaws R.meaning self.old give_back }
    {
        if !self.core.slip_out {
            return Err(Refused {
                slip,
                refusal: Refusal::NoSlipOut,
            });
        }
        self.core.slip_out = false;
        slip.spend();
        Ok(())
    }
}
