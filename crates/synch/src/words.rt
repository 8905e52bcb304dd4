// Twelve status words in two machine words.
ghost use Rattle.std.specs.Prelude.{◌<◌};

// The status words of twelve fibres, six bits each, the lower fibre in lower bits.
#[derive(Clone, Copy, Debug, PartialEq, Eq)]
pub struct StatusWords {
    // Those of fibres 0 to 5.
    pub(crate) first: u64,
    // Those of fibres 6 to 11.
    pub(crate) second: u64,
    ghost fits_first: { first < 68719476736 },
    ghost fits_second: { second < 68719476736 },
}
