// From the captured samples of a fibre to its record.
#![tactic(auto)]

mod chip;
mod common_mode;
mod flat;
pub mod laws;
pub mod order;
pub mod record;
mod reduced;
pub mod sample;

pub use order::strip_of_place;
pub use record::write_fibre;
pub use sample::Sample;
