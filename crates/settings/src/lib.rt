// Setting words: what each says, which are refused, and the settings that they change.
#![tactic(auto)]

pub mod apply;
pub mod card;
pub mod fibre;
pub mod fresh;
pub mod laws;
pub mod mode;
pub mod parts;
pub mod setting;
pub mod strip;
#[cfg(test)]
mod tests;
pub mod word;

pub use card::CardSettings;
pub use fibre::FibreSettings;
pub use mode::Mode;
pub use parts::{Pedestal, Thresholds, TickThreshold};
pub use setting::Setting;
pub use strip::StripSettings;
