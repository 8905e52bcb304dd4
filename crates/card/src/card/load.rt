// Load: a setting word.
ghost use Rattle.std.specs.Prelude.{◌≡◌};
ghost use Rattle.card_model.specs.Calls.{load as the_load};
ghost use Rattle.card.specs.Held.{CallStepped, CallKeepsLaws};
ghost use Rattle.card.specs.Steps.{said_load};

use super::Card;
use rules::Rule;
use settings::Setting;
use stores::Store;
use terms::Refusal;

impl<R: Rule + Drop, S: Store + Drop> Card<R, S> {
    // Is no capture running? 1. Then the questions about the word, 2 to 6.
    pub fn load(&mut self, word: u32) -> Result<(), Refusal>
        ensures step { CallStepped R.meaning self.old (the_load word) self.new (said_load result) }
        ensures rule { self.new.rule ≡ self.old.rule }
        ensures laws { CallKeepsLaws R.meaning self.old (the_load word) }
    {
        if self.core.capture.is_some() {
            return Err(Refusal::CaptureRunning);
        }
        let setting = Setting::try_from(word)?;
        self.core.apply(setting);
        Ok(())
    }
}
