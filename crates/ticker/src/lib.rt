// The ticker of a fibre: it finds the tick marks on the line, keeps in step with them, and sees a
// frame of data begin.
#![tactic(auto)]

mod due;
pub mod header;
pub mod laws;
pub mod level;
pub mod state;
pub mod step;
pub mod ticker;

pub use header::FrameHeader;
pub use state::State;
pub use ticker::Ticker;

#[cfg(test)]
mod tests;
