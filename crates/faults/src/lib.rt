// What can be wrong with stored bytes: the faults of the reader, each with a number, a layer, an offset and words.
#![tactic(auto)]

pub mod fault;
pub mod text;

pub use fault::{ClusterFault, EventFault, Layer, RecordFault};
