// Level: how many bytes wait on a fibre.
ghost use Rattle.std.specs.Prelude.{◌≡◌};
ghost use Rattle.card_model.specs.Calls.{level as the_level};
ghost use Rattle.card.specs.Held.{CallStepped, CallKeepsLaws};
ghost use Rattle.card.specs.Steps.{said_level};

use super::Card;
use rules::Rule;
use stores::Store;
use terms::Refusal;

impl<R: Rule + Drop, S: Store + Drop> Card<R, S> {
    // Is the fibre one of the twelve? 3.
    pub fn level(&self, fibre: usize) -> Result<usize, Refusal>
        ensures step { CallStepped R.meaning self.now (the_level fibre) self.now (said_level result) }
        ensures laws { CallKeepsLaws R.meaning self.now (the_level fibre) }
    {
        self.store.level(fibre)
    }
}
