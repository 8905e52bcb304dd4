// What a program's user chooses for a card: one of the rules, and one of the stores with memory of its own.
#![tactic(auto)]

pub mod memory;
pub mod rule;

pub use memory::LentStore;
pub use rule::ChosenRule;
