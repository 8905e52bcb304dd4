// Starting afresh, with the settings as they are.
ghost use Rattle.std.specs.Prelude.{◌≡◌, ℕ, false, List};
ghost use Rattle.stores.specs.Store.{empty_lists};
ghost use Rattle.card_model.specs.Step.{all_sent, resetting};
ghost use Rattle.card.specs.Abstraction.{state_of, watches_in};

use super::Core;
use settings::CardSettings;
use ticker::Ticker;

impl Core {
    // Every ticker hunts, or is off; no capture runs and no event waits.
    pub(crate) fn restart(&mut self)
        requires { self.old.slip_out ≡ false }
        ensures { (lists : List (List ℕ)) (room : ℕ) →
            state_of self.new empty_lists room
            ≡ (resetting (state_of self.old lists room)).next_card }
    {
        send_all(&self.settings, &mut self.tickers);
        self.capture = None;
        self.waiting.clear();
    }
}

// Sends every ticker to Off or Hunt by the enable of its fibre.
// Both by one index: a zip tells the proof nothing of what is written through its pairs.
fn send_all(settings: &CardSettings, tickers: &mut [Ticker; 12])
    ensures { watches_in tickers.new ≡ all_sent settings.now (watches_in tickers.old) }
{
    for (f, ticker) in tickers.iter_mut().enumerate() {
        ticker.send(settings.fibres[f].enable);
    }
}
