// The words that every layer shares: how many fibres, chips and strips there are, the two chips of a
// fibre as a pair, and the numbered refusals.
#![tactic(auto)]

pub mod enable;
pub mod fibre;
pub mod pair;
pub mod refusal;

pub use enable::Enable;
pub use fibre::Fibre;
pub use pair::{Pair, Side};
pub use refusal::Refusal;

// The fibres of a card.
pub const FIBRES: usize = 12;
// The chips of a card, two to a fibre.
pub const CHIPS: usize = 24;
// The strips of a chip.
pub const CHIP_STRIPS: usize = 128;
// The strips of a fibre: the left chip's, then the right chip's.
pub const STRIPS: usize = 256;
// The largest sample, flat value and common mode: ten bits.
pub const LARGEST: u16 = 1023;
