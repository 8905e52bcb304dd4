// The fault that ends a damaged run, in words.
ghost use Rattle.std.specs.Prelude.{◌≡◌, Some};
ghost use Rattle.keep.specs.Damage.{damage_text, file_offset};

use faults::EventFault;
use std::fmt;

// Where a stored run stops being events: the number of the event, its offset in the file, and its fault.
#[derive(Clone, Copy)]
pub struct Damage {
    pub event: usize,
    pub start: usize,
    pub fault: EventFault,
}

impl Damage {
    // The offset of the fault in the file; in 128 bits no sum of two offsets wraps.
    fn file_offset(self) -> u128
        ensures { result ≡ file_offset self }
    {
        self.start as u128 + self.fault.offset() as u128
    }
}

impl fmt::Display for Damage {
    ghost output = { λ damage. Some (damage_text damage) };

    fn fmt<W: fmt::Write>(&self, f: &mut fmt::Formatter<W>) -> fmt::Result {
        let event = self.event;
        let fault = self.fault;
        let number = fault.number();
        let layer = fault.layer();
        let offset = fault.offset();
        let place = self.file_offset();
        write!(f, "fault {number} ({layer}): {fault}")?;
        write!(
            f,
            ", at byte {offset} of event {event}, byte {place} of the file"
        )
    }
}
