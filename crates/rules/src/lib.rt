// The common-mode rules: how a chip's common mode is estimated from the values of its strips.
#![tactic(auto)]

mod chip_values;
mod fixed;
mod laws;
mod mean;
mod rank;
pub mod rule;
mod tally;
#[cfg(test)]
mod tests;

pub use fixed::Fixed;
pub use laws::{examples_stand, fixed_lacks_the_law, mean_stands, rank_stands};
pub use mean::Mean;
pub use rank::Rank;
pub use rule::{Rule, ShiftRule};
