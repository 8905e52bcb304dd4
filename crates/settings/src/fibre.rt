// The settings of one fibre.
use crate::strip::StripSettings;
use terms::{Enable, Pair};

#[derive(Clone, Copy)]
pub struct FibreSettings {
    // Which of its chips are read.
    pub enable: Enable,
    // Whether its samples are inverted.
    pub complement: bool,
    // The tick threshold T.
    pub threshold: u8,
    // Those of its strips.
    pub strips: [StripSettings; 256],
    // The rank setting of each chip.
    pub ranks: Pair<u8>,
}
