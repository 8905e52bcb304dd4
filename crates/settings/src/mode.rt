// What the card makes of an event's samples.
ghost use Rattle.std.specs.Prelude.{◌≡◌};
ghost use Rattle.settings.specs.Modes.{mode_number, ModeOf};

use terms::Refusal;

#[derive(Clone, Copy, Debug, PartialEq, Eq)]
pub enum Mode {
    // Common modes and clusters.
    ZeroSuppression,
    // The flat value of every strip.
    ProcessedRaw,
    // Every sample as it came.
    VirginRaw,
}

// The number that stands for it in a setting word.
impl From<Mode> for u8 {
    ghost from_gives = { λ mode number. number ≡ mode_number mode };

    fn from(mode: Mode) -> u8 {
        match mode {
            Mode::ZeroSuppression => 10,
            Mode::ProcessedRaw => 18,
            Mode::VirginRaw => 6,
        }
    }
}

// The mode of a number; 5 where there is none.
impl TryFrom<u8> for Mode {
    type Error = Refusal;

    ghost try_from_gives = { ModeOf };

    fn try_from(number: u8) -> Result<Mode, Refusal> {
        match number {
            6 => Ok(Mode::VirginRaw),
            10 => Ok(Mode::ZeroSuppression),
            18 => Ok(Mode::ProcessedRaw),
            _ => Err(Refusal::UnknownMode),
        }
    }
}
