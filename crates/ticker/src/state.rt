// What a ticker is doing.
ghost use Rattle.std.specs.Prelude.{◌≡◌};
ghost use Rattle.ticker.specs.Step.{in_lock};

// The number is the position of the coming sample.
#[derive(Clone, Copy, Debug, PartialEq, Eq)]
pub enum State {
    // Neither chip of the fibre is enabled.
    Off,
    // Waiting for a 1.
    Hunt,
    // A tick mark may have come; the next one is to confirm it. 1 to 71.
    Trial(u16),
    // In step with the tick marks. 0 to 69.
    Locked(u16),
    // A frame may have begun. 3 to 5.
    Check(u16),
    // Inside a frame. 6 to 279.
    Frame(u16),
}

impl State {
    // Whether the ticker knows where it is on the line.
    pub fn in_lock(self) -> bool
        ensures { result ≡ in_lock self }
    {
        match self {
            State::Off | State::Hunt | State::Trial(_) => false,
            State::Locked(_) | State::Check(_) | State::Frame(_) => true,
        }
    }
}
