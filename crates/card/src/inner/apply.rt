// Carrying out a setting.
ghost use Rattle.std.specs.Prelude.{Ok};
ghost use Rattle.card_model.specs.Step.{loaded};
ghost use Rattle.card.specs.Abstraction.{StateGoes};

use super::Core;
use settings::Setting;

impl Core {
    // Changes the settings, and sends the ticker of a fibre whose enable is set to Off or Hunt.
    pub(crate) fn apply(&mut self, setting: Setting)
        ensures { StateGoes (λ s. (loaded s (Ok setting)).next_card) self.old self.new }
    {
        self.settings.apply(setting);
        if let Setting::Tick { fibre, enable, .. } = setting {
            self.tickers[fibre.index()].send(enable);
        }
    }
}
