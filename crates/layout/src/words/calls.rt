// Words that fit.
ghost use Rattle.std.specs.Prelude.{◌≡◌, ℕ, true, false, max, MatchOption};
ghost use Rattle.std.specs.List.{fold};
ghost use Rattle.layout.specs.Limits.{at_most};
ghost use Rattle.layout.specs.Event.{words};
ghost use Rattle.layout.specs.Contents.{words_content};

use super::Words;
use terms::{LARGEST, STRIPS};

impl Words {
    // The words of a record, where none is above 1023.
    pub fn new(list: [u16; STRIPS]) -> Option<Words>
        ensures { MatchOption result (at_most 1023 list ≡ false) (λ w. words_content w ≡ words list) }
    {
        if largest(&list) <= LARGEST {
            Some(Words { list })
        } else {
            None
        }
    }
}

// The largest of the words. It decides, and not all(..), which ends early and takes a sixth longer for the record.
fn largest(list: &[u16; STRIPS]) -> u16
    ensures { result ≡ fold max 0 list.now }
{
    list.iter().fold(0, |largest, word| largest.max(*word))
}
