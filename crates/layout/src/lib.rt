// The layout of an event as bytes, and the writing of its records.
#![tactic(auto)]

mod bytes;
pub mod kind;
pub mod laws;
pub mod record_kind;
pub mod run;
pub mod runs;
pub mod suppressed;
pub mod words;
pub mod write;

pub use kind::{Kind, UnknownCode};
pub use record_kind::RecordKind;
pub use record_kind::processed_raw::ProcessedRaw;
pub use record_kind::virgin_raw::VirginRaw;
pub use record_kind::zero_suppressed::ZeroSuppressed;
pub use run::Run;
pub use runs::Runs;
pub use suppressed::Suppressed;
pub use words::Words;
pub use write::write_record;

#[cfg(test)]
mod tests;
