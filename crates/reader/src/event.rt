// An event of the layout, as a part of the input that it was read from.
ghost use Rattle.std.specs.Prelude.{◌≡◌, slice_index, is_ok, true};
ghost use Rattle.layout.specs.Event.{code};
ghost use Rattle.reader.specs.Items.{all_bytes};
ghost use Rattle.reader.specs.Questions.{read_event};

use layout::Kind;

pub mod questions;
pub mod reading;

#[derive(Clone, Copy)]
pub struct Event<'a> {
    kind: Kind,
    bytes: &'a [u8],
    ghost bytes_fit: { all_bytes bytes.now ≡ true },
    ghost accepted: { is_ok (read_event bytes.now) ≡ true },
    ghost of_kind: { code kind ≡ slice_index bytes.now 2 },
}
