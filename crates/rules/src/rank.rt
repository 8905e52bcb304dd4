// The value at a position of a chip's values in rising order, found by two tallies and no sorting.
ghost use Rattle.std.specs.Prelude.{◌≡◌, ◌/◌, ◌%◌, ◌<◌, ◌≤◌, length, if◌then◌else◌, Some, None, nat_eq};
ghost use Rattle.rules.specs.Bins.{Tallies, tops, bottoms};
ghost use Rattle.rules.specs.Rules.{rank, rank_position, value_at};
ghost use Rattle.rules.specs.Positions.{rank_bounded};

use crate::chip_values::ChipValues;
use crate::laws::rank_stands;
use crate::rule::{Rule, ShiftRule};
use crate::tally::Tally;
use terms::Refusal;

// A value has five top bits, one of 32 bins, and five bottom bits.
const BINS: u16 = 32;

#[derive(Clone, Copy)]
pub struct Rank;

impl Rule for Rank {
    ghost meaning = { λ _. rank };

    ghost bounded = { λ _. rank_bounded };

    fn estimate(&self, chip: usize, setting: u8, values: &[u16]) -> Result<u16, Refusal> {
        let asked = ChipValues::new(chip, values)?;
        Ok(asked.value_at(asked.position(setting)))
    }
}

impl ShiftRule for Rank {
    fn shifts(&self) {
        rank_stands();
    }
}

impl ChipValues<'_> {
    // The position that a rank setting asks for.
    fn position(&self, setting: u8) -> usize
        ensures { result ≡ rank_position setting (length self.now.values.now) }
    {
        usize::from(setting).div_ceil(2).clamp(1, self.values.len())
    }

    // The value at a position: its top bits by a first tally, its bottom bits by a second within their bin.
    fn value_at(&self, position: usize) -> u16
        requires some { 0 < position }
        requires within { position ≤ length self.now.values.now }
        ensures { result ≡ value_at position self.now.values.now }
    {
        let top = self.tally_tops().find(position);
        let bottom = self.tally_bottoms(top.bin).find(position - top.before);
        (32 * top.bin + bottom.bin) as u16
    }

    // A tally of the values by their top bits.
    fn tally_tops(&self) -> Tally
        ensures { Tallies result.counts (tops self.now.values.now) }
    {
        let mut tally = Tally::new();
        for v in self.values {
            tally.take(usize::from(*v / BINS));
        }
        tally
    }

    // A tally of the values in one bin by their bottom bits.
    fn tally_bottoms(&self, bin: usize) -> Tally
        ensures { Tallies result.counts (bottoms bin self.now.values.now) }
    {
        let mut tally = Tally::new();
        for v in self.values {
            if let Some(bits) = bottom_bits(*v, bin) {
                tally.take(bits);
            }
        }
        tally
    }
}

// The bottom bits of a value whose top bits are those of the bin.
fn bottom_bits(value: u16, bin: usize) -> Option<usize>
    ensures { result ≡ (if nat_eq (value / 32) bin then Some (value % 32) else None) }
{
    (usize::from(value / BINS) == bin).then_some(usize::from(value % BINS))
}
