// Which chips of a fibre are read.
ghost use Rattle.std.specs.Prelude.{◌≡◌};
ghost use Rattle.terms.specs.Terms.{enabled, enabled_chips, enable_number};

use crate::pair::Side;

#[derive(Clone, Copy, Debug, PartialEq, Eq)]
pub enum Enable {
    Neither,
    Right,
    Left,
    Both,
}

// The two bits that stand for it in a setting word: the left chip's, then the right chip's.
impl From<Enable> for u8 {
    ghost from_gives = { λ enable number. number ≡ enable_number enable };

    fn from(enable: Enable) -> u8 {
        match enable {
            Enable::Neither => 0,
            Enable::Right => 1,
            Enable::Left => 2,
            Enable::Both => 3,
        }
    }
}

impl Enable {
    // Whether the chip on a side is enabled.
    pub fn has(self, side: Side) -> bool
        ensures { result ≡ enabled self side }
    {
        match (self, side) {
            (Enable::Both, _) => true,
            (Enable::Left, Side::Left) => true,
            (Enable::Right, Side::Right) => true,
            _ => false,
        }
    }

    // How many chips are enabled.
    pub fn chips(self) -> u8
        ensures { result ≡ enabled_chips self }
    {
        match self {
            Enable::Neither => 0,
            Enable::Right | Enable::Left => 1,
            Enable::Both => 2,
        }
    }
}
