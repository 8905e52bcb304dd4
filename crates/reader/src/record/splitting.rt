// Cuts the records of an event apart.
ghost use Rattle.std.specs.Prelude.{◌≡◌};
ghost use Rattle.std.specs.Iterator.{YieldsFirstBy, item_count};
ghost use Rattle.std.specs.List.{flat_map};
ghost use Rattle.layout.specs.Event.{record_bytes};
ghost use Rattle.reader.specs.Items.{contents_in};
ghost use Rattle.reader.specs.Parts.{record_value, records_left};

use crate::record::{Record, Records};
use crate::words::number_in;
use layout::Kind;

impl<'a> Records<'a> {
    pub(crate) fn new(kind: Kind, bytes: &'a [u8]) -> Records<'a>
        requires { flat_map (record_bytes kind) (contents_in kind bytes.now) ≡ bytes.now }
        ensures kind { result.kind ≡ kind }
        ensures bytes { result.left.now ≡ bytes.now }
    {
        Records { kind, left: bytes }
    }
}

impl<'a> Iterator for Records<'a> {
    type Item = Record<'a>;

    ghost next_gives = { YieldsFirstBy record_value records_left };

    ghost remaining = { item_count records_left };

    fn next(&mut self) -> Option<Record<'a>> {
        let kind = self.kind;
        let [lo, hi, _, rest @ ..] = self.left else {
            return None;
        };
        let size = usize::from(number_in(*lo, *hi)).saturating_sub(3);
        if rest.len() < size {
            return None;
        }
        let (content, left) = rest.split_at(size);
        *self = Records { kind, left };
        Some(Record { kind, content })
    }
}
