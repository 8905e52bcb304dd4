// Which chip a position of the line belongs to.
ghost use Rattle.std.specs.Prelude.{◌≡◌};
ghost use Rattle.ticker.specs.Step.{due, side_of};

use terms::{Enable, Side};

// The left chip's are the even positions, the right chip's the odd ones.
pub fn side_of(position: u16) -> Side
    ensures { result ≡ side_of position }
{
    if position % 2 == 0 {
        Side::Left
    } else {
        Side::Right
    }
}

// Whether the chip that a position belongs to is enabled.
pub fn due(enable: Enable, position: u16) -> bool
    ensures { result ≡ due enable position }
{
    enable.has(side_of(position))
}
