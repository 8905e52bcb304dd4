// What twelve fibres say together: whether an event begins, the header that its chips vote for, and
// the status of each fibre.
#![tactic(auto)]

mod bit;
mod chips;
pub mod laws;
pub mod majority;
pub mod standing;
pub mod status;
pub mod synch;
pub mod words;

pub use majority::event_begins;
pub use standing::Standing;
pub use synch::Synch;
pub use words::StatusWords;
