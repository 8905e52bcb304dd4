// What the kinds of record have in common: a packet code, and a content that is written behind the header.
ghost use Rattle.std.specs.Prelude.{◌≡◌, ℕ, length};
ghost use Rattle.layout.specs.declared.kind.Kind.{Kind};
ghost use Rattle.layout.specs.Event.{Content as LayoutContent, ContentOk, code, content_bytes};
ghost use Rattle.layout.specs.Writing.{Written};

use terms::Refusal;

pub mod processed_raw;
pub mod virgin_raw;
pub mod zero_suppressed;

pub trait RecordKind {
    // The packet code.
    const CODE: u8;

    // What a record of this kind holds.
    type Content;

    // Which kind it is.
    ghost kind: { Kind };

    // The content of the layout that a content stands for.
    ghost meaning: { Self.Content → LayoutContent };

    // The packet code, as the layout has it.
    fn packet_code() -> u8
        ensures { result ≡ code kind };

    // How many bytes the content takes.
    fn content_length(content: &Self::Content) -> usize
        ensures { result ≡ length (content_bytes (meaning content.now)) };

    // Writes the content to the front of a buffer: is it long enough? 11, naming the length.
    fn write_content(content: &Self::Content, out: &mut [u8]) -> Result<usize, Refusal>
        ensures { Written (content_bytes (meaning content.now)) out.old out.new result };

    ghost sound: { (c : Self.Content) → ContentOk kind (meaning c) };
}
