// A ticker: its state, with a position that fits it, and the header of its latest frame.
ghost use Rattle.std.specs.Prelude.{◌≡◌, ◌≤◌};
ghost use Rattle.ticker.specs.Range.{position, lowest, highest};

use crate::header::FrameHeader;
use crate::state::State;

#[derive(Clone, Copy)]
pub struct Ticker {
    pub(crate) state: State,
    pub(crate) header: FrameHeader,
    ghost low: { lowest state ≤ position state },
    ghost high: { position state ≤ highest state },
}

impl Ticker {
    // The state, with the position of the coming sample.
    pub fn state(&self) -> State
        ensures { result ≡ self.now.state }
    {
        self.state
    }

    // The header bytes and error bits of the latest frame.
    pub fn header(&self) -> FrameHeader
        ensures { result ≡ self.now.header }
    {
        self.header
    }
}
