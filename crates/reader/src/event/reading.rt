// Reads an event.
ghost use Rattle.std.specs.Prelude.{◌≡◌, None, MatchResult, OnOk, IfOk, IfErr, slice_index};
ghost use Rattle.std.specs.List.{AllByRecursion};
ghost use Rattle.layout.specs.Event.{Byte, code};
ghost use Rattle.reader.specs.Parts.{Accepted, Rejected, AcceptedFront, RejectedFront};
ghost use Rattle.reader.specs.Walks.{Passed, Stopped};
ghost use Rattle.reader.specs.Questions.{ok_map, ends_at, read_records};

use crate::event::Event;
use crate::part::Part;
use crate::record::header::Header;
use crate::record::reading::read_record;
use crate::words::number_in;
use faults::EventFault;
use layout::Kind;
use terms::FIBRES;

// Reads the records of an event one after the other: what is left of the input.
#[derive(Drop)]
struct RecordReader<'a> {
    left: Part<'a>,
}

impl RecordReader<'_> {
    // Reads the next record, and answers its kind; `first` is the kind of fibre 0, for the fibres behind it.
    fn read_next(&mut self, first: Option<Kind>) -> Result<Kind, EventFault>
        ensures passed { IfOk result (Passed first self.old self.new) }
        ensures stopped { IfErr result (Stopped first self.old) }
    {
        let [lo, hi, code, rest @ ..] = self.left.bytes else {
            return Err(EventFault::NoHeader(self.left.at));
        };
        let size = usize::from(number_in(*lo, *hi));
        let header = Header {
            at: self.left.at,
            size,
            code: *code,
            rest,
        };
        let kind = read_record(first, header)?;
        self.left = self.left.behind(size);
        Ok(kind)
    }
}

// Reads the twelve records at the front of an input, and answers their kind and where the last of them ends.
fn read_records(input: &[u8]) -> Result<(Kind, usize), EventFault>
    ensures end { ok_map (λ p. p.1) result ≡ ok_map ends_at (read_records 12 None 0 input.now) }
    ensures kind { IfOk result (λ p. slice_index input.now 2 ≡ code p.0) }
    ensures bytes { OnOk result (AllByRecursion Byte input.now) }
{
    let left = Part {
        bytes: input,
        at: 0,
    };
    let mut records = RecordReader { left };
    let kind = records.read_next(None)?;
    // By number: twelve are asked for, whatever is left, and the first fault ends the walk.
    for _fibre in 1..FIBRES {
        records.read_next(Some(kind))?;
    }
    Ok((kind, records.left.at))
}

// Reads the event at the front of an input, and hands back what lies behind it.
pub fn read_first<'a>(input: &'a [u8]) -> Result<(Event<'a>, &'a [u8]), EventFault>
    ensures { MatchResult result (λ p. AcceptedFront input.now p.0 p.1.now) (RejectedFront input.now) }
{
    let (kind, end) = read_records(input)?;
    let (bytes, rest) = input.split_at(end);
    Ok((Event { kind, bytes }, rest))
}

// Reads an input that is one event and nothing else.
pub fn read_event<'a>(input: &'a [u8]) -> Result<Event<'a>, EventFault>
    ensures { MatchResult result (Accepted input.now) (Rejected input.now) }
{
    let (event, rest) = read_first(input)?;
    if rest.is_empty() {
        Ok(event)
    } else {
        Err(EventFault::LeftOver(event.bytes.len()))
    }
}
