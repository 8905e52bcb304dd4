// The faults and their layers in words.
ghost use Rattle.std.specs.Prelude.{Some};
ghost use Rattle.faults.specs.Texts.{layer_text, cluster_text, record_text, event_text};

use crate::fault::{ClusterFault, EventFault, Layer, RecordFault};
use std::error::Error;
use std::fmt;

impl fmt::Display for Layer {
    ghost output = { λ layer. Some (layer_text layer) };

    fn fmt<W: fmt::Write>(&self, f: &mut fmt::Formatter<W>) -> fmt::Result {
        match self {
            Layer::Event => f.write_str("event"),
            Layer::Record => f.write_str("record"),
            Layer::Cluster => f.write_str("cluster"),
        }
    }
}

impl fmt::Display for ClusterFault {
    ghost output = { λ fault. Some (cluster_text fault) };

    fn fmt<W: fmt::Write>(&self, f: &mut fmt::Formatter<W>) -> fmt::Result {
        match self {
            ClusterFault::NoHeader(_) => {
                f.write_str("one byte left in the record where a cluster needs two")
            }
            ClusterFault::BadLength(_) => {
                f.write_str("a cluster with no strip or beyond the end of its chip")
            }
            ClusterFault::DataOutside(_) => {
                f.write_str("cluster values beyond the end of the record")
            }
            ClusterFault::OutOfOrder(_) => f.write_str(
                "a cluster not above the one before, or with fewer than two strips free between them",
            ),
        }
    }
}

impl fmt::Display for RecordFault {
    ghost output = { λ fault. Some (record_text fault) };

    fn fmt<W: fmt::Write>(&self, f: &mut fmt::Formatter<W>) -> fmt::Result {
        match self {
            RecordFault::UnknownCode(_) => f.write_str("an unknown packet code"),
            RecordFault::OtherKind(_) => f.write_str("a packet code other than that of fibre 0"),
            RecordFault::LengthRange(_) => {
                f.write_str("a length that a record of this kind cannot have")
            }
            RecordFault::Outside(_) => f.write_str("a record beyond the end of the file"),
            RecordFault::TooLarge(_) => f.write_str("a common mode or word above 1023"),
            RecordFault::Cluster(fault) => write!(f, "{fault}"),
        }
    }
}

impl fmt::Display for EventFault {
    ghost output = { λ fault. Some (event_text fault) };

    fn fmt<W: fmt::Write>(&self, f: &mut fmt::Formatter<W>) -> fmt::Result {
        match self {
            EventFault::NoHeader(_) => f.write_str("fewer than three bytes left for a record"),
            EventFault::Record(fault) => write!(f, "{fault}"),
            EventFault::LeftOver(_) => f.write_str("bytes behind the twelfth record"),
        }
    }
}

impl Error for ClusterFault {}

impl Error for RecordFault {}

impl Error for EventFault {}
