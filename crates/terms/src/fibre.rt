// The number of a fibre, 0 to 11.
ghost use Rattle.std.specs.Prelude.{◌≡◌, ℕ, ◌+◌, ◌*◌, ◌<◌, ◌≤◌, MatchResult};
ghost use Rattle.terms.specs.Terms.{chip_number};
ghost use Rattle.terms.specs.declared.refusal.Refusal.TheVariants.{NoSuchFibre};

use crate::pair::Side;
use crate::refusal::Refusal;

#[derive(Clone, Copy, Debug, PartialEq, Eq)]
pub struct Fibre {
    index: usize,
    ghost below: { index < 12 },
}

impl Fibre {
    // The fibre of a number; 3 where there is none.
    pub fn new(index: usize) -> Result<Fibre, Refusal>
        ensures { MatchResult result (λ f. f.index ≡ index) (λ e. (12 ≤ index) × (e ≡ NoSuchFibre)) }
    {
        if index < 12 {
            Ok(Fibre { index })
        } else {
            Err(Refusal::NoSuchFibre)
        }
    }

    pub fn index(self) -> usize
        ensures { result ≡ self.index }
    {
        self.index
    }

    // The number of the fibre's chip on a side: 2f for the left one, 2f + 1 for the right one.
    pub fn chip(self, side: Side) -> usize
        ensures { result ≡ chip_number self.index side }
    {
        match side {
            Side::Left => 2 * self.index,
            Side::Right => 2 * self.index + 1,
        }
    }
}
