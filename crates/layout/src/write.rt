// The writing of a record, whatever its kind.
ghost use Rattle.std.specs.Prelude.{ℕ};
ghost use Rattle.layout.specs.Event.{record_bytes};
ghost use Rattle.layout.specs.Writing.{Written};

use crate::bytes::write_word;
use crate::record_kind::RecordKind;
use terms::Refusal;

// The bytes of a record's header: its length in two bytes, its packet code.
pub const HEADER: usize = 3;

// Writes a record to the front of a buffer: is it long enough? 11, naming the length.
pub fn write_record<K: RecordKind>(content: &K::Content, out: &mut [u8]) -> Result<usize, Refusal>
    ensures { Written (record_bytes K.RecordKind.kind (K.RecordKind.meaning content.now)) out.old out.new result }
{
    let length = HEADER + K::content_length(content);
    if out.len() < length {
        return Err(Refusal::BufferTooShort(length));
    }
    write_word(out, 0, length as u16);
    out[2] = K::packet_code();
    match K::write_content(content, &mut out[HEADER..]) {
        Ok(_) => Ok(length),
        Err(_) => unreachable(),
    }
}
