// A sample against the tick threshold of its fibre.
ghost use Rattle.std.specs.Prelude.{◌≡◌};
ghost use Rattle.ticker.specs.Step.{is_one};

// Whether a sample is a 1: it exceeds 32 times the threshold.
pub fn level(sample: u16, threshold: u8) -> bool
    ensures { result ≡ is_one sample threshold }
{
    sample > 32 * u16::from(threshold)
}
