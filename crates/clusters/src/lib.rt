// Cluster finding: which strips belong to a cluster, by the thresholds that they and their neighbours reach.
#![tactic(auto)]

pub mod finder;
pub mod laws;
pub mod pattern;
pub mod reached;
mod window;

pub use finder::find_clusters;
pub use pattern::Mark;
pub use reached::Reached;
