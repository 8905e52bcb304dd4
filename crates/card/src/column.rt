// The samples of one Clock, captured.
ghost use Rattle.std.specs.Prelude.{◌≡◌, ◌+◌, ◌<◌, ◌≤◌};
ghost use Rattle.strips.specs.Fibre.{numbers};
ghost use Rattle.card.specs.Abstraction.{rows_in, columns_before};
ghost use Rattle.card.specs.Columns.{columns_after, ColumnSet};

use crate::row::Row;
use strips::Sample;

// The position of the first captured samples.
pub(crate) const FIRST_SAMPLE: usize = 24;

// Captures the samples of a position, if it is one that has samples.
pub(crate) fn capture_samples(rows: &mut [Row; 12], position: usize, samples: &[Sample; 12])
    requires { position ≤ 279 }
    ensures { columns_before (rows_in rows.new) (position + 1)
        ≡ columns_after position (numbers samples.now) (columns_before (rows_in rows.old) position) }
{
    if position >= FIRST_SAMPLE {
        set_column(rows, position - FIRST_SAMPLE, samples);
    }
}

// Writes a sample to a place of each fibre.
// Rows and samples by one index: a zip tells the proof nothing of what is written through its pairs.
fn set_column(rows: &mut [Row; 12], place: usize, samples: &[Sample; 12])
    requires { place < 256 }
    ensures { ColumnSet (rows_in rows.old) place (numbers samples.now) (rows_in rows.new) }
{
    for (f, row) in rows.iter_mut().enumerate() {
        row.set(place, samples[f]);
    }
}
