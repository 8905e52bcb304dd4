// All that a card holds but its rule and its store.
use crate::capture::Capture;
use crate::row::Row;
use crate::waiting::Waiting;
use settings::CardSettings;
use ticker::Ticker;

pub(crate) mod advance;
pub(crate) mod apply;
pub(crate) mod complete;
pub(crate) mod go_on;
pub(crate) mod loss;
pub(crate) mod new;
pub(crate) mod restart;
pub(crate) mod seek;

#[derive(Drop)]
pub(crate) struct Core {
    pub(crate) settings: CardSettings,
    // Apart from the rows: a Clock steps all twelve, so they lie close together.
    pub(crate) tickers: [Ticker; 12],
    pub(crate) capture: Option<Capture>,
    // The captured samples of each fibre.
    pub(crate) rows: [Row; 12],
    pub(crate) waiting: Waiting,
    pub(crate) slip_out: bool,
}
