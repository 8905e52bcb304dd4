// How a fibre stands.
ghost use Rattle.std.specs.Prelude.{◌≡◌};
ghost use Rattle.synch.specs.Vote.{votes};

use terms::{Enable, Side};
use ticker::FrameHeader;

// How a fibre stands after a step of its ticker. Twelve of them go by as an array: its length is in its type,
// and nothing else is known of it. Lock and step are flags, since the status word tells each, and the header
// is the latest one, in step or not.
#[derive(Clone, Copy)]
pub struct Standing {
    pub enable: Enable,
    // Its ticker is in lock.
    pub in_lock: bool,
    // It pulsed as the event began.
    pub in_step: bool,
    // The header bytes and error bits that its frame brought.
    pub header: FrameHeader,
}

impl Standing {
    // Whether the fibre's chip on a side votes: the fibre is in step and the chip enabled.
    pub fn votes(&self, side: Side) -> bool
        ensures { result ≡ votes self.now side }
    {
        self.in_step && self.enable.has(side)
    }
}
