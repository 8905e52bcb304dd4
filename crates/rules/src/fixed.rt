// A common mode that is set by hand.
ghost use Rattle.rules.specs.Rules.{fixed};
ghost use Rattle.rules.specs.FixedNumbers.{fixed_bounded};

use crate::chip_values::ChipValues;
use crate::rule::Rule;
use terms::{LARGEST, Refusal};

// One number for each chip of the card.
#[derive(Clone, Copy)]
pub struct Fixed {
    pub numbers: [u16; 24],
}

impl Rule for Fixed {
    ghost meaning = { λ rule. fixed rule.numbers };

    ghost bounded = { λ rule. fixed_bounded rule.numbers };

    fn estimate(&self, chip: usize, _setting: u8, values: &[u16]) -> Result<u16, Refusal> {
        let asked = ChipValues::new(chip, values)?;
        Ok(self.numbers[asked.chip].min(LARGEST))
    }
}
