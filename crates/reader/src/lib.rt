// Takes a stored event apart: event, record and cluster readers, and their numbered faults.
#![tactic(auto)]

pub mod cluster;
mod content;
pub mod event;
pub mod laws;
mod part;
pub mod record;
pub mod stored;
pub mod words;

pub use cluster::{Cluster, Clusters};
pub use event::Event;
pub use event::reading::{read_event, read_first};
pub use laws::{layout_stands, parts_stand, run_stands, worked_examples_stand};
pub use record::{Record, Records};
pub use stored::{Survey, survey_run};
pub use words::Words;
