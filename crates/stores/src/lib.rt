// Output stores: what a store means, and rings over lent memory.
#![tactic(auto)]

pub mod both;
pub mod call;
mod index;
mod memory;
mod queue;
pub mod ring;
pub mod run;
pub mod store;
mod stretch;
mod word;

pub use both::carry_out_on_both;
pub use call::{StoreAnswer, StoreCall, StoreReply};
pub use ring::{ByteRing, Ring, WordRing};
pub use run::{carry_out, carry_out_all, worked_examples};
pub use store::Store;

#[cfg(test)]
mod tests;
