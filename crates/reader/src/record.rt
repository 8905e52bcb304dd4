// One record of an event, as a part of the input.
ghost use Rattle.std.specs.Prelude.{◌≡◌};
ghost use Rattle.layout.specs.Event.{content_bytes, record_bytes};
ghost use Rattle.std.specs.List.{flat_map};
ghost use Rattle.reader.specs.Items.{content_in, contents_in};

use layout::Kind;

pub(crate) mod header;
pub mod questions;
pub(crate) mod reading;
pub(crate) mod splitting;

// Kind and bytes: an enum of contents would say the kind a second time.
#[derive(Clone, Copy)]
pub struct Record<'a> {
    kind: Kind,
    content: &'a [u8],
    ghost whole: { content_bytes (content_in kind content.now) ≡ content.now },
}

// Records of one kind, one after the other.
#[derive(Drop)]
pub struct Records<'a> {
    kind: Kind,
    left: &'a [u8],
    ghost whole: { flat_map (record_bytes kind) (contents_in kind left.now) ≡ left.now },
}
