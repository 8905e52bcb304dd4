// What the first samples of a frame say: a header byte and an error bit for each chip.
ghost use Rattle.std.specs.Prelude.{◌≡◌};
ghost use Rattle.ticker.specs.Step.{shifted, heard};

use crate::due::{due, side_of};
use crate::state::State;
use terms::{Enable, Pair, Side};

// The header bytes of a fibre's two chips, and whether their error bits are good: two pairs, since the vote
// reads the bytes alone.
#[derive(Clone, Copy)]
pub struct FrameHeader {
    pub bytes: Pair<u8>,
    pub good: Pair<bool>,
}

impl FrameHeader {
    // A sample of a frame: the due positions 6 to 21 bring the header bytes, highest bit first, left
    // then right; 22 and 23 bring the error bits.
    pub(crate) fn hear(&mut self, enable: Enable, position: u16, level: bool)
        ensures { self.new ≡ heard enable (State.Frame position) level self.old }
    {
        if position < 6 || position > 23 || !due(enable, position) {
            return;
        }
        match (position < 22, side_of(position)) {
            (true, Side::Left) => self.bytes.left = shift(self.bytes.left, level),
            (true, Side::Right) => self.bytes.right = shift(self.bytes.right, level),
            (false, Side::Left) => self.good.left = level,
            (false, Side::Right) => self.good.right = level,
        }
    }
}

// A byte moved up by one bit, with the level at its lowest.
fn shift(byte: u8, level: bool) -> u8
    ensures { result ≡ shifted byte level }
{
    (byte << 1) + u8::from(level)
}
