// Reads the contents of records, each kind by its own questions.
ghost use Rattle.std.specs.Prelude.{◌≡◌, ℕ, ◌+◌, ◌≤◌, length};
ghost use Rattle.layout.specs.Event.{shortest};
ghost use Rattle.reader.specs.Questions.{verdict, read_suppressed};
ghost use Rattle.reader.specs.Walks.{content_asked};

use crate::cluster::read_clusters;
use crate::part::Part;
use crate::words::read_words;
use faults::RecordFault;
use layout::{Kind, ProcessedRaw, RecordKind, VirginRaw, ZeroSuppressed};

// Both common modes, then the clusters.
fn read_suppressed(content: Part) -> Result<(), RecordFault>
    requires { 4 ≤ length content.bytes.now }
    ensures { result ≡ verdict (read_suppressed content.entry.at content.entry.bytes.now) }
{
    read_words(Part {
        bytes: &content.bytes[0..4],
        at: content.at,
    })?;
    read_clusters(content.behind(4))?;
    Ok(())
}

// A kind of record whose content can be read.
pub(crate) trait ReadKind: RecordKind {
    fn kind_of_record() -> Kind
        ensures { result ≡ Self.RecordKind.kind };

    // The questions of a content.
    fn read_content(content: Part) -> Result<(), RecordFault>
        requires { shortest Self.RecordKind.kind ≤ 3 + length content.bytes.now }
        ensures { result ≡ verdict (content_asked Self.RecordKind.kind content.entry) };
}

impl ReadKind for ZeroSuppressed {
    fn kind_of_record() -> Kind {
        Kind::ZeroSuppressed
    }

    fn read_content(content: Part) -> Result<(), RecordFault> {
        read_suppressed(content)
    }
}

// The two kinds of raw record differ in their constants alone: each kind brings its own, a rule of
// the project.
impl ReadKind for ProcessedRaw {
    fn kind_of_record() -> Kind {
        Kind::ProcessedRaw
    }

    fn read_content(content: Part) -> Result<(), RecordFault> {
        read_words(content)
    }
}

impl ReadKind for VirginRaw {
    fn kind_of_record() -> Kind {
        Kind::VirginRaw
    }

    fn read_content(content: Part) -> Result<(), RecordFault> {
        read_words(content)
    }
}
