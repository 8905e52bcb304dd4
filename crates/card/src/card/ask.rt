// Ask: a slip for the oldest event.
ghost use Rattle.std.specs.Prelude.{◌≡◌, false, IfOk};
ghost use Rattle.card_model.specs.Calls.{ask as the_ask};
ghost use Rattle.card.specs.Held.{CallStepped, CallKeepsLaws};
ghost use Rattle.card.specs.Steps.{said_ask};

use super::Card;
use crate::lengths::event_length;
use crate::slip::Slip;
use rules::Rule;
use stores::Store;
use terms::Refusal;

impl<R: Rule + Drop, S: Store + Drop> Card<R, S> {
    // Is no slip out? 8. Does an event wait? 9. The slip has the event's length, and is not spent.
    pub fn ask(&mut self) -> Result<Slip, Refusal>
        ensures step { CallStepped R.meaning self.old the_ask self.new (said_ask result) }
        ensures slip { IfOk result (λ s. s.spent ≡ false) }
        ensures rule { self.new.rule ≡ self.old.rule }
        ensures laws { CallKeepsLaws R.meaning self.old the_ask }
    {
        if self.core.slip_out {
            return Err(Refusal::SlipOut);
        }
        let lengths = self.core.waiting.front().ok_or(Refusal::NothingWaiting)?;
        self.core.slip_out = true;
        Ok(Slip::new(event_length(&lengths)))
    }
}
