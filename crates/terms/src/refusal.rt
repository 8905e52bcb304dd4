// A refusal: the first question about a call that is answered no.
ghost use Rattle.std.specs.Prelude.{◌≡◌};
ghost use Rattle.terms.specs.Terms.{number, named};

#[derive(Clone, Copy, Debug, PartialEq, Eq)]
pub enum Refusal {
    // A setting word while a capture runs.
    CaptureRunning,
    // A setting word whose kind is none of 1 to 5.
    UnknownSetting,
    // A fibre above 11.
    NoSuchFibre,
    // A setting word with a one among its unused bits.
    UnusedBits,
    // A mode other than 6, 10 and 18.
    UnknownMode,
    // thresh2 is not above thresh1, and not both are 255.
    ThresholdOrder,
    // A sample above 1023; the lowest such fibre.
    SampleTooLarge(usize),
    // A slip is out.
    SlipOut,
    // No event waits.
    NothingWaiting,
    // No slip is out.
    NoSlipOut,
    // A buffer that is too short; the length that is needed.
    BufferTooShort(usize),
    // A fibre's list is as long as the capacity.
    StoreFull,
    // Fewer bytes wait on a fibre than were asked for.
    StoreEmpty,
    // A rule's chip, length or value is out of range.
    OutOfRange,
    // A cluster index that the record does not have.
    NoSuchCluster,
    // A cluster of a raw record.
    NotZeroSuppressed,
}

impl Refusal {
    // The number by which the card's manual knows the refusal.
    pub fn number(self) -> u8
        ensures { result ≡ number self }
    {
        match self {
            Refusal::CaptureRunning => 1,
            Refusal::UnknownSetting => 2,
            Refusal::NoSuchFibre => 3,
            Refusal::UnusedBits => 4,
            Refusal::UnknownMode => 5,
            Refusal::ThresholdOrder => 6,
            Refusal::SampleTooLarge(_) => 7,
            Refusal::SlipOut => 8,
            Refusal::NothingWaiting => 9,
            Refusal::NoSlipOut => 10,
            Refusal::BufferTooShort(_) => 11,
            Refusal::StoreFull => 12,
            Refusal::StoreEmpty => 13,
            Refusal::OutOfRange => 16,
            Refusal::NoSuchCluster => 32,
            Refusal::NotZeroSuppressed => 33,
        }
    }

    // What stands beside the number: a fibre or a length.
    pub fn named(self) -> Option<usize>
        ensures { result ≡ named self }
    {
        match self {
            Refusal::SampleTooLarge(fibre) => Some(fibre),
            Refusal::BufferTooShort(length) => Some(length),
            _ => None,
        }
    }
}
