// The twelve records of a completed event.
ghost use Rattle.std.specs.Prelude.{◌≡◌};
ghost use Rattle.card_model.specs.Clock.{records_of};
ghost use Rattle.card_model.specs.Readout.{lengths_of};
ghost use Rattle.card.specs.Abstraction.{rows_in, columns_before};

use crate::record::Record;
use crate::row::Row;
use rules::Rule;
use settings::CardSettings;

// Forms each record.
// Records and rows by one index: a zip tells the proof nothing of what is written through its pairs.
pub(crate) fn form_records<R: Rule>(
    rule: &R,
    settings: &CardSettings,
    rows: &[Row; 12],
    records: &mut [Record; 12],
)
    ensures { records.new
        ≡ records_of (R.meaning rule.now) settings.now (columns_before (rows_in rows.now) 280) }
{
    for (f, record) in records.iter_mut().enumerate() {
        record.form(rule, settings, f, &rows[f]);
    }
}

// How long each record is.
// A loop: of what array::from_fn makes it stayed open by which records its closure made it.
pub(crate) fn lengths_of(records: &[Record; 12]) -> [u16; 12]
    ensures { result ≡ lengths_of records.now }
{
    let mut lengths = [0; 12];
    for (f, record) in records.iter().enumerate() {
        lengths[f] = record.len();
    }
    lengths
}
