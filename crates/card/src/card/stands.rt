// What holds of every card.
ghost use Rattle.std.specs.Prelude.{◌≤◌, length, IfSome};
ghost use Rattle.std.specs.List.{AllByRecursion};
ghost use Rattle.stores.specs.Store.{Sound};
ghost use Rattle.card.specs.Standing.{InReach, Captured};

use super::Card;
use rules::Rule;
use stores::Store;

impl<R: Rule + Drop, S: Store + Drop> Card<R, S> {
    // Its store is as every store, at most 255 events wait, each ticker holds a position that its state can hold,
    // and a capture is not past the last position and has ten-bit samples of all fibres for each position before its
    // own, from the first sample's on.
    pub fn stands(&self)
        ensures store { Sound self.now.state.readout.room self.now.state.readout.lists }
        ensures waiting { length self.now.state.readout.events ≤ 255 }
        ensures tickers { AllByRecursion InReach self.now.state.watches }
        ensures capture { IfSome self.now.state.capture (λ c. c.position ≤ 279) }
        ensures samples { IfSome self.now.state.capture Captured }
    {
        let _ = self.core.waiting.len();
    }
}
