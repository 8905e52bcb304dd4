// Fetch: the oldest event goes to a buffer, and the slip is spent.
ghost use Rattle.std.specs.Prelude.{◌≡◌, length};
ghost use Rattle.card_model.specs.Calls.{fetch as the_fetch};
ghost use Rattle.card_model.specs.Readout.{oldest_bytes};
ghost use Rattle.card.specs.Held.{CallStepped, CallKeepsLaws};
ghost use Rattle.card.specs.Steps.{HandedBack, said_fetch, Fetched};
ghost use Rattle.card.specs.Taking.{LengthsOf};

use super::Card;
use crate::lengths::event_length;
use crate::slip::{Refused, Slip};
use crate::taking::take_event;
use crate::waiting::Waiting;
use rules::Rule;
use stores::Store;
use terms::Refusal;

// The lengths of the oldest event's records; zeros where no event waits.
fn oldest(waiting: &Waiting) -> [u16; 12]
    ensures { LengthsOf waiting.now result }
{
    waiting.front().unwrap_or([0; 12])
}

impl<R: Rule + Drop, S: Store + Drop> Card<R, S> {
    // Is a slip out? 10. Is the buffer long enough? 11, with the event's length. A refusal hands the slip back.
    pub fn fetch(&mut self, slip: Slip, buffer: &mut [u8]) -> Result<usize, Refused>
        ensures step { CallStepped R.meaning self.old (the_fetch (length buffer.old))
            self.new (said_fetch result buffer.new) }
        ensures written { Fetched (oldest_bytes self.old.state.readout) buffer.old buffer.new result }
        ensures slip { HandedBack slip result }
        ensures rule { self.new.rule ≡ self.old.rule }
        ensures laws { CallKeepsLaws R.meaning self.old (the_fetch (length buffer.old)) }
    {
        if !self.core.slip_out {
            return Err(Refused {
                slip,
                refusal: Refusal::NoSlipOut,
            });
        }
        let lengths = oldest(&self.core.waiting);
        let length = event_length(&lengths);
        if buffer.len() < length {
            return Err(Refused {
                slip,
                refusal: Refusal::BufferTooShort(length),
            });
        }
        take_event(&mut self.store, &lengths, buffer);
        self.core.waiting.pop_front();
        self.core.slip_out = false;
        slip.spend();
        Ok(length)
    }
}
