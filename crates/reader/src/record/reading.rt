// Reads a record behind its header bytes.
ghost use Rattle.std.specs.Prelude.{◌≡◌, Some, IfOk};
ghost use Rattle.layout.specs.declared.kind.Kind.{Kind as KindOf};
ghost use Rattle.layout.specs.Event.{code as packet_code};
ghost use Rattle.reader.specs.Questions.{verdict};
ghost use Rattle.reader.specs.Walks.{body_asked, record_asked};

use crate::content::ReadKind;
use crate::part::Part;
use crate::record::header::Header;
use faults::RecordFault;
use layout::{Kind, ProcessedRaw, RecordKind, VirginRaw, ZeroSuppressed};

// The questions of a record of the kind `K`, behind its header.
fn read_body<K: ReadKind>(header: Header) -> Result<(), RecordFault>
    ensures { result ≡ verdict (body_asked K.RecordKind.kind header.entry) }
{
    let Header { at, size, rest, .. } = header;
    let kind = K::kind_of_record();
    if size < kind.shortest() || size > kind.longest() {
        return Err(RecordFault::LengthRange(at));
    }
    if size > 3 + rest.len() {
        return Err(RecordFault::Outside(at));
    }
    K::read_content(Part {
        bytes: &rest[0..size - 3],
        at: at + 3,
    })
}

// Reads a record behind its header, and answers its kind; `first` is the kind of fibre 0, for the fibres behind it.
pub(crate) fn read_record(first: Option<Kind>, header: Header) -> Result<Kind, RecordFault>
    ensures asked { verdict result ≡ verdict (record_asked first header.entry) }
    ensures kind { IfOk result (λ kind. header.entry.code ≡ packet_code kind) }
    ensures same { IfOk result (λ kind. (f : KindOf) → first ≡ Some f → kind ≡ f) }
{
    let Ok(kind) = Kind::try_from(header.code) else {
        return Err(RecordFault::UnknownCode(header.at + 2));
    };
    if first.is_some_and(|first| first != kind) {
        return Err(RecordFault::OtherKind(header.at + 2));
    }
    match kind {
        Kind::ZeroSuppressed => read_body::<ZeroSuppressed>(header)?,
        Kind::ProcessedRaw => read_body::<ProcessedRaw>(header)?,
        Kind::VirginRaw => read_body::<VirginRaw>(header)?,
    }
    Ok(kind)
}
