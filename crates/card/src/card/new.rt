// A new card.
ghost use Rattle.std.specs.Prelude.{◌≡◌, []};
ghost use Rattle.card_model.specs.Laws.{AfterEvery};
ghost use Rattle.card_model.specs.State.{fresh};

use super::Card;
use crate::inner::Core;
use rules::Rule;
use stores::Store;

impl<R: Rule + Drop, S: Store + Drop> Card<R, S> {
    // A card over a rule and a store, whatever the store holds.
    pub fn new(rule: R, store: S) -> Card<R, S>
        ensures state { result.state ≡ fresh (S.room store) }
        ensures rule { result.rule ≡ rule }
        ensures laws { AfterEvery (R.meaning rule) (S.room store) [] }
    {
        let mut store = store;
        store.clear();
        Card {
            rule,
            store,
            core: Core::new(),
        }
    }
}
