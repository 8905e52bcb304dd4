// What one setting word sets.
use crate::mode::Mode;
use crate::parts::{Pedestal, Thresholds, TickThreshold};
use terms::{Enable, Fibre, Side};

#[derive(Clone, Copy)]
pub enum Setting {
    // Kind 1: the card's mode.
    Mode(Mode),
    // Kind 2: which chips of a fibre are read, whether it is inverted, and its tick threshold.
    Tick {
        fibre: Fibre,
        enable: Enable,
        complement: bool,
        threshold: TickThreshold,
    },
    // Kind 3: whether a strip is valid, and its pedestal.
    Pedestal {
        fibre: Fibre,
        strip: u8,
        valid: bool,
        pedestal: Pedestal,
    },
    // Kind 4: the two thresholds of a strip.
    Thresholds {
        fibre: Fibre,
        strip: u8,
        thresholds: Thresholds,
    },
    // Kind 5: the rank setting of a chip.
    Rank {
        fibre: Fibre,
        side: Side,
        rank: u8,
    },
}
