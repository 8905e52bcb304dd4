// What is wrong with an input that is no event: the first question that is answered no. Each fault has a
// number, a layer and the byte offset, counted from the start of the input, at which it was found. A fault
// of a lower layer stands whole inside that of the upper one.
ghost use Rattle.std.specs.Prelude.{◌≡◌};
ghost use Rattle.faults.specs.Faults.{fault_number, fault_layer, fault_offset, record_number, record_layer, record_offset, cluster_number, cluster_offset};
ghost use Rattle.faults.specs.declared.fault.EventFault.TheVariants as events;
ghost use Rattle.faults.specs.declared.fault.RecordFault.TheVariants as records;

#[derive(Clone, Copy, Debug, PartialEq, Eq)]
pub enum Layer {
    Event,
    Record,
    Cluster,
}

// A fault of a cluster, at its address byte.
#[derive(Clone, Copy, Debug, PartialEq, Eq)]
pub enum ClusterFault {
    // One byte is left in the record where a cluster needs two.
    NoHeader(usize),
    // No strip, or strips past the end of the chip.
    BadLength(usize),
    // The values go past the end of the record.
    DataOutside(usize),
    // The address does not rise, or fewer than two strips are free behind the cluster before.
    OutOfOrder(usize),
}

// A fault of a record.
#[derive(Clone, Copy, Debug, PartialEq, Eq)]
pub enum RecordFault {
    // A packet code that is none of the three.
    UnknownCode(usize),
    // A packet code that is not that of fibre 0.
    OtherKind(usize),
    // A length that records of this kind cannot have.
    LengthRange(usize),
    // A length that goes past the end of the input.
    Outside(usize),
    // A common mode or a word above 1023, at its low byte.
    TooLarge(usize),
    // A fault of one of its clusters.
    Cluster(ClusterFault),
}

// A fault of an event.
#[derive(Clone, Copy, Debug, PartialEq, Eq)]
pub enum EventFault {
    // Fewer than three bytes are left for a record's header.
    NoHeader(usize),
    // A fault of one of its records.
    Record(RecordFault),
    // Bytes behind the twelfth record.
    LeftOver(usize),
}

impl From<ClusterFault> for RecordFault {
    ghost from_gives = { λ e r. r ≡ records.Cluster e };

    fn from(e: ClusterFault) -> RecordFault {
        RecordFault::Cluster(e)
    }
}

impl From<RecordFault> for EventFault {
    ghost from_gives = { λ e r. r ≡ events.Record e };

    fn from(e: RecordFault) -> EventFault {
        EventFault::Record(e)
    }
}

impl ClusterFault {
    pub fn number(self) -> u8
        ensures { result ≡ cluster_number self }
    {
        match self {
            ClusterFault::NoHeader(_) => 27,
            ClusterFault::BadLength(_) => 28,
            ClusterFault::DataOutside(_) => 29,
            ClusterFault::OutOfOrder(_) => 30,
        }
    }

    pub fn offset(self) -> usize
        ensures { result ≡ cluster_offset self }
    {
        match self {
            ClusterFault::NoHeader(at)
            | ClusterFault::BadLength(at)
            | ClusterFault::DataOutside(at)
            | ClusterFault::OutOfOrder(at) => at,
        }
    }
}

impl RecordFault {
    pub fn number(self) -> u8
        ensures { result ≡ record_number self }
    {
        match self {
            RecordFault::UnknownCode(_) => 22,
            RecordFault::OtherKind(_) => 23,
            RecordFault::LengthRange(_) => 24,
            RecordFault::Outside(_) => 25,
            RecordFault::TooLarge(_) => 26,
            RecordFault::Cluster(fault) => fault.number(),
        }
    }

    pub fn layer(self) -> Layer
        ensures { result ≡ record_layer self }
    {
        match self {
            RecordFault::Cluster(_) => Layer::Cluster,
            _ => Layer::Record,
        }
    }

    pub fn offset(self) -> usize
        ensures { result ≡ record_offset self }
    {
        match self {
            RecordFault::UnknownCode(at)
            | RecordFault::OtherKind(at)
            | RecordFault::LengthRange(at)
            | RecordFault::Outside(at)
            | RecordFault::TooLarge(at) => at,
            RecordFault::Cluster(fault) => fault.offset(),
        }
    }
}

impl EventFault {
    pub fn number(self) -> u8
        ensures { result ≡ fault_number self }
    {
        match self {
            EventFault::NoHeader(_) => 21,
            EventFault::Record(fault) => fault.number(),
            EventFault::LeftOver(_) => 31,
        }
    }

    pub fn layer(self) -> Layer
        ensures { result ≡ fault_layer self }
    {
        match self {
            EventFault::Record(fault) => fault.layer(),
            _ => Layer::Event,
        }
    }

    pub fn offset(self) -> usize
        ensures { result ≡ fault_offset self }
    {
        match self {
            EventFault::NoHeader(at) | EventFault::LeftOver(at) => at,
            EventFault::Record(fault) => fault.offset(),
        }
    }
}
