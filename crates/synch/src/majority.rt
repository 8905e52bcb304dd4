// What most chips say.
ghost use Rattle.std.specs.Prelude.{◌≡◌};
ghost use Rattle.synch.specs.Vote.{more_than_half, event, majority_header};

use crate::bit::Bit;
use crate::chips::{Question, chips};
use crate::standing::Standing;

// Whether more than half of the voters vote for it.
fn majority(votes: u32, voters: u32) -> bool
    ensures { result ≡ more_than_half votes voters }
{
    2 * votes.count_ones() > voters.count_ones()
}

// Whether an event begins: the enabled chips of the fibres in step, those that pulse, are more than
// half of the enabled chips of the fibres in lock.
pub fn event_begins(fibres: &[Standing; 12]) -> bool
    ensures { result ≡ event fibres.now }
{
    majority(
        chips(fibres, Question::InStep),
        chips(fibres, Question::InLock),
    )
}

// The header that the chips in step vote for, bit by bit; a tie gives 0.
pub(crate) fn majority_header(fibres: &[Standing; 12]) -> u8
    ensures { result ≡ majority_header fibres.now }
{
    let voters = chips(fibres, Question::InStep);
    let mut header = 0;
    for place in (0..8).rev() {
        let votes = chips(fibres, Question::HeaderBit(Bit { place }));
        header = 2 * header + u8::from(majority(votes, voters));
    }
    header
}
