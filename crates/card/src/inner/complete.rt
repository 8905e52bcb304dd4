// The last Clock of a capture: the event is formed, and kept or lost.
ghost use Rattle.std.specs.Prelude.{◌≡◌, [], ◌∷◌, ◌++◌, None};
ghost use Rattle.strips.specs.Fibre.{numbers};
ghost use Rattle.card_model.specs.Clock.{records_of, completing};
ghost use Rattle.card.specs.Abstraction.{state_in, watches_in, rows_in, columns_before};
ghost use Rattle.card.specs.Steps.{Leads, said_clocked};

use super::Core;
use crate::clocked::Clocked;
use crate::column::capture_samples;
use crate::forming::{form_records, lengths_of};
use crate::lengths::event_length;
use crate::putting::put_records;
use crate::record::Record;
use rules::Rule;
use std::array;
use stores::Store;
use strips::Sample;

// The position of the last Clock of a capture.
pub(crate) const LAST: usize = 279;

impl Core {
    // Ends the capture with its last samples, and forms the event.
    pub(crate) fn complete<R: Rule, S: Store>(
        &mut self,
        rule: &R,
        store: &mut S,
        samples: &[Sample; 12],
    ) -> Clocked
        ensures { Leads
            (completing (state_in S.Store self.old store.old) (watches_in self.old.tickers)
            (records_of (R.meaning rule.now) self.old.settings
            (columns_before (rows_in self.old.rows) 279 ++ numbers samples.now ∷ [])))
            (state_in S.Store self.new store.new) (said_clocked result) }
    {
        capture_samples(&mut self.rows, LAST, samples);
        self.capture = None;
        let mut records = array::from_fn(|_| Record::new());
        form_records(rule, &self.settings, &self.rows, &mut records);
        self.take_in(store, &records)
    }

    // Keeps an event, unless it is lost.
    fn take_in<S: Store>(&mut self, store: &mut S, records: &[Record; 12]) -> Clocked
        requires { self.old.capture ≡ None }
        ensures { Leads
            (completing (state_in S.Store self.old store.old) (watches_in self.old.tickers) records.now)
            (state_in S.Store self.new store.new) (said_clocked result) }
    {
        let lengths = lengths_of(records);
        match self.loss(store, &lengths) {
            Some(loss) => Clocked::Lost(loss),
            None => {
                put_records(store, records);
                self.waiting.push_back(lengths);
                Clocked::Kept(event_length(&lengths))
            }
        }
    }
}
