// Runs of a card and of its shifted twin, worked out call by call.
#![tactic(auto)]

mod laws;

pub use laws::worked_twins_stand;
