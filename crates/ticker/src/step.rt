// What a ticker does with the coming sample.
ghost use Rattle.std.specs.Prelude.{◌≡◌, false};
ghost use Rattle.ticker.specs.Step.{sent, next, pulses, heard, taken_as, first_due, blank};

use crate::due::due;
use crate::header::FrameHeader;
use crate::state::State;
use crate::ticker::Ticker;
use terms::{Enable, Pair};

impl Ticker {
    // A ticker that watches nothing yet.
    pub fn new() -> Ticker
        ensures state { result.state ≡ State.Off }
        ensures header { result.header ≡ blank }
    {
        let bytes = Pair { left: 0, right: 0 };
        let good = Pair {
            left: false,
            right: false,
        };
        Ticker {
            state: State::Off,
            header: FrameHeader { bytes, good },
        }
    }

    // Starts afresh: off where neither chip is enabled, else hunting.
    pub fn send(&mut self, enable: Enable)
        ensures state { self.new.state ≡ sent enable }
        ensures header { self.new.header ≡ self.old.header }
    {
        self.state = match enable {
            Enable::Neither => State::Off,
            Enable::Left | Enable::Right | Enable::Both => State::Hunt,
        };
    }

    // Takes the coming sample, a 1 or a 0, and answers whether the ticker pulses: a frame has begun.
    pub fn step(&mut self, enable: Enable, level: bool) -> bool
        ensures pulse { result ≡ pulses enable self.old.state level }
        ensures state { self.new.state ≡ next enable self.old.state level }
        ensures header { self.new.header ≡ heard enable self.old.state level self.old.header }
    {
        match (self.state, level) {
            (State::Off, _) | (State::Hunt, false) => false,
            (State::Hunt, true) => {
                self.state = State::Trial(taken_as(enable) + 1);
                false
            }
            (State::Trial(p @ (1 | 70 | 71)), false) if due(enable, p) => {
                self.state = State::Hunt;
                false
            }
            (State::Trial(71), _) => {
                self.state = State::Locked(2);
                false
            }
            (State::Trial(p), _) => {
                self.state = State::Trial(p + 1);
                false
            }
            (State::Locked(p @ (0 | 1)), false) if due(enable, p) => {
                self.state = State::Hunt;
                false
            }
            (State::Locked(p), true) if first_due(enable, p) => {
                self.state = State::Check(p + 1);
                false
            }
            (State::Locked(69), _) => {
                self.state = State::Locked(0);
                false
            }
            (State::Locked(p), _) => {
                self.state = State::Locked(p + 1);
                false
            }
            (State::Check(p), false) if due(enable, p) => {
                self.state = State::Hunt;
                false
            }
            (State::Check(5), _) => {
                self.state = State::Frame(6);
                true
            }
            (State::Check(p), _) => {
                self.state = State::Check(p + 1);
                false
            }
            (State::Frame(279), _) => {
                self.state = State::Locked(0);
                false
            }
            (State::Frame(p), _) => {
                self.header.hear(enable, p, level);
                self.state = State::Frame(p + 1);
                false
            }
        }
    }
}

// The position that the first 1 is taken for.
fn taken_as(enable: Enable) -> u16
    ensures { result ≡ taken_as enable }
{
    match enable {
        Enable::Right => 1,
        Enable::Neither | Enable::Left | Enable::Both => 0,
    }
}

// Whether a position is the first due one from 2.
fn first_due(enable: Enable, position: u16) -> bool
    ensures { result ≡ first_due enable position }
{
    match enable {
        Enable::Neither => false,
        Enable::Right => position == 3,
        Enable::Left | Enable::Both => position == 2,
    }
}
