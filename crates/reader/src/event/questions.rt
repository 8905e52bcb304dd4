// What an event holds.
ghost use Rattle.std.specs.Prelude.{◌≡◌, ℕ, ◌≤◌, length, MatchResult};
ghost use Rattle.terms.specs.declared.refusal.Refusal.TheVariants.{NoSuchFibre};
ghost use Rattle.reader.specs.Asked.{RecordOf};
ghost use Rattle.reader.specs.Parts.{records_left, records_of, value_of, event_bytes};

use crate::event::Event;
use crate::record::{Record, Records};
use layout::Kind;
use terms::{Fibre, Refusal};

impl<'a> Event<'a> {
    // The kind of its twelve records.
    pub fn kind(&self) -> Kind
        ensures { result ≡ (value_of self.now).kind }
    {
        self.kind
    }

    // The number of its bytes.
    pub fn size(&self) -> usize
        ensures { result ≡ length (event_bytes self.now) }
    {
        self.bytes.len()
    }

    // Its records, in fibre order.
    pub fn records(&self) -> Records<'a>
        ensures given { records_left result ≡ records_of (value_of self.now) }
        ensures twelve { length (records_left result) ≡ 12 }
    {
        Records::new(self.kind, self.bytes)
    }

    // The record of a fibre. Refused with 3 where there is no such fibre.
    pub fn record(&self, fibre: usize) -> Result<Record<'a>, Refusal>
        ensures { MatchResult result (RecordOf self.now fibre) (λ e. (12 ≤ fibre) × (e ≡ NoSuchFibre)) }
    {
        let fibre = Fibre::new(fibre)?;
        self.records()
            .nth(fibre.index())
            .ok_or(Refusal::NoSuchFibre)
    }
}
