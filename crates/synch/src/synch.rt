// What a card answers when the headers of a frame are in.
ghost use Rattle.std.specs.Prelude.{◌≡◌, map};
ghost use Rattle.synch.specs.Status.{status_word, words};
ghost use Rattle.synch.specs.Vote.{majority_header};

use crate::majority::majority_header;
use crate::standing::Standing;
use crate::status::status_words;
use crate::words::StatusWords;

// The header that the chips in step voted for, and how each fibre stands beside it.
#[derive(Clone, Copy)]
pub struct Synch {
    pub header: u8,
    pub words: StatusWords,
}

impl Synch {
    // The answer for twelve fibres, as they stand after position 23.
    pub fn of(fibres: &[Standing; 12]) -> Synch
        ensures header { result.header ≡ majority_header fibres.now }
        ensures words { words result.words ≡ map (status_word (majority_header fibres.now)) fibres.now }
    {
        let header = majority_header(fibres);
        Synch {
            header,
            words: status_words(fibres, header),
        }
    }
}
