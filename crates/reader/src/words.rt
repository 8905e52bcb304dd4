// Reads the ten-bit words of a record.
ghost use Rattle.std.specs.Prelude.{◌≡◌, ℕ, List};
ghost use Rattle.std.specs.Iterator.{YieldsFirst, item_count};
ghost use Rattle.std.specs.List.{slice_get};
ghost use Rattle.reader.specs.Items.{words_in};
ghost use Rattle.reader.specs.Parts.{words_left};
ghost use Rattle.reader.specs.Questions.{verdict, number_in, read_words};

use crate::part::Part;
use faults::RecordFault;
use terms::LARGEST;

// The number in two bytes, low byte first.
pub(crate) fn number_in(lo: u8, hi: u8) -> u16
    ensures { result ≡ number_in lo hi }
{
    u16::from_le_bytes([lo, hi])
}

// The words in some bytes, two bytes each.
#[derive(Drop)]
pub struct Words<'a> {
    left: &'a [u8],
}

impl Words<'_> {
    pub(crate) fn new(bytes: &[u8]) -> Words<'_>
        ensures { words_left result ≡ words_in bytes.now }
    {
        Words { left: bytes }
    }

    // The word of an index, in one step: `nth` goes over all those before it.
    pub(crate) fn get(&self, index: usize) -> Option<u16>
        ensures { result ≡ slice_get (words_left self.now) index }
    {
        if index >= self.left.len() / 2 {
            return None;
        }
        Some(number_in(self.left[2 * index], self.left[2 * index + 1]))
    }
}

impl Iterator for Words<'_> {
    type Item = u16;

    ghost next_gives = { YieldsFirst words_left };

    ghost remaining = { item_count words_left };

    fn next(&mut self) -> Option<u16> {
        let [lo, hi, rest @ ..] = self.left else {
            return None;
        };
        self.left = rest;
        Some(number_in(*lo, *hi))
    }
}

// Reads all words of a raw record's content.
pub(crate) fn read_words(content: Part) -> Result<(), RecordFault>
    ensures { result ≡ verdict (read_words content.entry.at content.entry.bytes.now) }
{
    match Words::new(content.bytes).position(|word| word > LARGEST) {
        Some(index) => Err(RecordFault::TooLarge(content.at + 2 * index)),
        None => Ok(()),
    }
}
