// One of the common-mode rules, chosen as a program runs.
ghost use Rattle.chosen.specs.Rule.{chosen};
ghost use Rattle.rules.specs.Positions.{rank_bounded};
ghost use Rattle.rules.specs.Averages.{mean_bounded};
ghost use Rattle.rules.specs.FixedNumbers.{fixed_bounded};
ghost use Rattle.chosen.specs.declared.rule.ChosenRule.TheVariants.{Rank, Mean, Fixed};

use rules::{Fixed, Mean, Rank, Rule};
use terms::Refusal;

// An enum: a line of a script chooses the rule, and what reads it may hand out no dyn value.
#[derive(Clone, Copy)]
pub enum ChosenRule {
    Rank,
    Mean,
    Fixed(Fixed),
}

impl Rule for ChosenRule {
    ghost meaning = { chosen };

    ghost bounded = { elim [ Rank ↦ rank_bounded | Mean ↦ mean_bounded | Fixed f ↦ fixed_bounded f.numbers ] };

    fn estimate(&self, chip: usize, setting: u8, values: &[u16]) -> Result<u16, Refusal> {
        match self {
            ChosenRule::Rank => Rank.estimate(chip, setting, values),
            ChosenRule::Mean => Mean.estimate(chip, setting, values),
            ChosenRule::Fixed(fixed) => fixed.estimate(chip, setting, values),
        }
    }
}
