// A sample of a line.
ghost use Rattle.std.specs.Prelude.{◌≡◌, ◌<◌, ◌≤◌, MatchOption};

use terms::LARGEST;

// A number that an ADC can give: ten bits, 0 to 1023.
#[derive(Clone, Copy)]
pub struct Sample {
    value: u16,
    ghost ten_bits: { value ≤ 1023 },
}

impl Sample {
    // The sample of a number, where that has ten bits. As NonZero::new: an error would tell no more than None.
    pub fn new(value: u16) -> Option<Sample>
        ensures { MatchOption result (1023 < value) (λ s. s.value ≡ value) }
    {
        if value > LARGEST {
            None
        } else {
            Some(Sample { value })
        }
    }

    pub fn value(self) -> u16
        ensures { result ≡ self.value }
    {
        self.value
    }
}
