// A card's memory before anything happened.
ghost use Rattle.std.specs.Prelude.{◌≡◌, ℕ};
ghost use Rattle.stores.specs.Store.{empty_lists};
ghost use Rattle.card_model.specs.State.{fresh};
ghost use Rattle.card.specs.Abstraction.{state_of};

use super::Core;
use crate::row::Row;
use crate::samples::zero;
use crate::waiting::Waiting;
use settings::CardSettings;
use ticker::Ticker;

impl Core {
    pub(crate) fn new() -> Core
        ensures { (room : ℕ) → state_of result empty_lists room ≡ fresh room }
    {
        Core {
            settings: CardSettings::fresh(),
            tickers: [Ticker::new(); 12],
            capture: None,
            rows: [Row::of(zero()); 12],
            waiting: Waiting::new(),
            slip_out: false,
        }
    }
}
