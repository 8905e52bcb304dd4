// The mean of a chip's values.
ghost use Rattle.std.specs.Prelude.{◌≡◌, ◌/◌, length, sum};
ghost use Rattle.rules.specs.Rules.{mean};
ghost use Rattle.rules.specs.Averages.{mean_bounded};

use crate::chip_values::ChipValues;
use crate::laws::mean_stands;
use crate::rule::{Rule, ShiftRule};
use terms::Refusal;

#[derive(Clone, Copy)]
pub struct Mean;

impl Rule for Mean {
    ghost meaning = { λ _. mean };

    ghost bounded = { λ _. mean_bounded };

    fn estimate(&self, chip: usize, _setting: u8, values: &[u16]) -> Result<u16, Refusal> {
        Ok(ChipValues::new(chip, values)?.mean())
    }
}

impl ShiftRule for Mean {
    fn shifts(&self) {
        mean_stands();
    }
}

impl ChipValues<'_> {
    // The sum of the values divided by their number, rounded down.
    fn mean(&self) -> u16
        ensures { result ≡ sum self.now.values.now / length self.now.values.now }
    {
        let length = self.values.len() as u32;
        let total: u32 = self.values.iter().map(|v| u32::from(*v)).sum();
        (total / length) as u16
    }
}
