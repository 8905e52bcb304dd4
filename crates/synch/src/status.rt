// The status of each fibre beside the header that was voted for.
ghost use Rattle.std.specs.Prelude.{◌≡◌, ◌<◌, ◌≤◌, map, length};
ghost use Rattle.synch.specs.Packed.{packed};
ghost use Rattle.synch.specs.Status.{header_equal, error_good, status_word, sixth, word_of, words};

use crate::standing::Standing;
use crate::words::StatusWords;
use terms::{Fibre, Side};

impl StatusWords {
    // The status word of one fibre.
    pub fn word(self, fibre: Fibre) -> u8
        ensures { result ≡ word_of self fibre.index }
    {
        let place = fibre.index();
        if place < 6 {
            sixth(self.first, place)
        } else {
            sixth(self.second, place - 6)
        }
    }
}

// One of six words that stand side by side.
fn sixth(word: u64, place: usize) -> u8
    requires { place < 6 }
    ensures { result ≡ sixth word place }
{
    ((word >> (6 * place)) % 64) as u8
}

// The status words of all fibres beside a header.
pub(crate) fn status_words(fibres: &[Standing; 12], header: u8) -> StatusWords
    ensures { words result ≡ map (status_word header) fibres.now }
{
    StatusWords {
        first: pack(&fibres[0..6], header),
        second: pack(&fibres[6..12], header),
    }
}

// The status words of at most six fibres, side by side. A loop for all packed words would take what it packs
// as a closure, with three clauses about it; it is shorter written out.
fn pack(fibres: &[Standing], header: u8) -> u64
    requires { length fibres.now ≤ 6 }
    ensures value { result ≡ packed 64 (status_word header) fibres.now }
    ensures bound { result < 68719476736 }
{
    let mut word = 0;
    for fibre in fibres.iter().rev() {
        word = 64 * word + u64::from(status_word(fibre, header));
    }
    word
}

// The status word of one fibre, highest bit first: in lock, in step, then for the left chip and the
// right one whether it votes and its header is the given one, and whether it votes and its error bit
// is good.
fn status_word(fibre: &Standing, header: u8) -> u8
    ensures { result ≡ status_word header fibre.now }
{
    32 * u8::from(fibre.in_lock)
        + 16 * u8::from(fibre.in_step)
        + 8 * u8::from(header_equal(fibre, Side::Left, header))
        + 4 * u8::from(error_good(fibre, Side::Left))
        + 2 * u8::from(header_equal(fibre, Side::Right, header))
        + u8::from(error_good(fibre, Side::Right))
}

// Whether a chip votes and its header is the given one.
fn header_equal(fibre: &Standing, side: Side, header: u8) -> bool
    ensures { result ≡ header_equal header fibre.now side }
{
    fibre.votes(side) && *fibre.header.bytes.of(side) == header
}

// Whether a chip votes and its error bit is good.
fn error_good(fibre: &Standing, side: Side) -> bool
    ensures { result ≡ error_good fibre.now side }
{
    fibre.votes(side) && *fibre.header.good.of(side)
}
