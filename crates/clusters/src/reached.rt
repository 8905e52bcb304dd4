// What a strip reaches.
ghost use Rattle.std.specs.Prelude.{◌≡◌};
ghost use Rattle.clusters.specs.Quiet.{reaches_nothing};

// Which of its two thresholds a strip's reduced value reaches.
#[derive(Clone, Copy)]
pub struct Reached {
    pub thresh1: bool,
    pub thresh2: bool,
}

// What lies beyond the ends of a chip.
pub const NOTHING: Reached = Reached {
    thresh1: false,
    thresh2: false,
};

impl Reached {
    // Whether it is neither threshold.
    pub fn is_nothing(self) -> bool
        ensures { result ≡ reaches_nothing self }
    {
        !self.thresh1 && !self.thresh2
    }
}
