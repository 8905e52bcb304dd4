// A card over any rule and any store.
use crate::inner::Core;
use rules::Rule;
use std::marker::Model;
use stores::Store;

pub(crate) mod ask;
pub(crate) mod carry_out;
pub(crate) mod clock;
pub(crate) mod fetch;
pub(crate) mod give_back;
pub(crate) mod level;
pub(crate) mod load;
pub(crate) mod new;
pub(crate) mod reset;
pub(crate) mod stands;

// Each call says that the rule stays: of the card before and after, so no invariant says it.
#[derive(Drop)]
pub struct Card<R: Rule + Drop, S: Store + Drop> {
    rule: R,
    store: S,
    core: Core,
}

impl<R: Rule + Drop, S: Store + Drop> Model for Card<R, S> {
    ghost use Rattle.card.specs.Abstraction.{state_in};
    ghost use Rattle.card.specs.Held.{Held};

    ghost Value = { Held R };

    ghost view = { λ c. record { rule = c.rule; state = state_in S.Store c.core c.store } };
}
