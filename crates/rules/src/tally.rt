// How many of the values taken so far lie in each of 32 bins.
ghost use Rattle.std.specs.Prelude.{◌≡◌, ℕ, ◌+◌, ◌<◌, ◌≤◌, List, [], ◌∷◌, take, sum, slice_index};
ghost use Rattle.rules.specs.Bins.{Tallies};
ghost use Rattle.rules.specs.Rules.{HasPosition, below};

// The last of the bins.
const LAST: usize = 31;

#[derive(Clone, Copy)]
pub(crate) struct Tally {
    counts: [u8; 32],
}

// Where a position lies: its bin, and how many values lie in the bins before it.
#[derive(Clone, Copy)]
pub(crate) struct Found {
    pub(crate) bin: usize,
    pub(crate) before: usize,
}

impl Tally {
    // A tally that has taken nothing.
    pub(crate) fn new() -> Tally
        ensures { Tallies result.counts [] }
    {
        Tally { counts: [0; 32] }
    }

    // Takes one more value, of a bin that has taken fewer than 128.
    pub(crate) fn take(&mut self, bin: usize)
        requires within { bin < 32 }
        requires room { slice_index self.old.counts bin < 128 }
        ensures { (ks : List ℕ) → Tallies self.old.counts ks → Tallies self.new.counts (bin ∷ ks) }
    {
        self.counts[bin] += 1;
    }

    // The bin that has a position among those of the values taken.
    pub(crate) fn find(&self, position: usize) -> Found
        requires some { 0 < position }
        requires enough { position ≤ sum (take 32 self.now.counts) }
        ensures within { result.bin < 32 }
        ensures found { (ks : List ℕ) → Tallies self.now.counts ks → HasPosition position result.bin ks }
        ensures before { (ks : List ℕ) → Tallies self.now.counts ks → result.before ≡ below result.bin ks }
    {
        let mut before = 0;
        for (bin, count) in self.counts[..LAST].iter().enumerate() {
            let upto = before + usize::from(*count);
            if position <= upto {
                return Found { bin, before };
            }
            before = upto;
        }
        // What lies in none of the bins before lies in the last.
        Found { bin: LAST, before }
    }
}
