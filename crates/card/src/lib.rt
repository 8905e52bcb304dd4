// The card: twelve fibres are watched and captured, their events reduced, stored and fetched, over any rule and
// any store.
#![tactic(auto)]

pub mod answer;
pub mod call;
mod capture;
pub mod card;
pub mod clocked;
mod column;
mod forming;
mod inner;
mod lengths;
mod putting;
mod record;
mod row;
pub mod run;
mod samples;
pub mod slip;
mod standings;
mod taking;
mod tick;
mod waiting;

pub use answer::Answer;
pub use call::Call;
pub use card::Card;
pub use clocked::{Clocked, Loss};
pub use run::run_calls;
pub use slip::{Refused, Slip};
