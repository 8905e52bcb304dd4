// What a card is, and what holds of it over every list of calls.
#![tactic(auto)]

pub mod laws;

pub use laws::{bytes_balance, events_of_the_layout, no_early_loss, readout_stands};
