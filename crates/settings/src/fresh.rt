// The settings of a card that was just made.
ghost use Rattle.std.specs.Prelude.{◌≡◌};
ghost use Rattle.settings.specs.Settings.{fresh_card, fresh_fibre, fresh_strip};

use crate::card::CardSettings;
use crate::fibre::FibreSettings;
use crate::mode::Mode;
use crate::strip::StripSettings;
use terms::{Enable, Pair};

impl StripSettings {
    // Not valid, the pedestal 0, both thresholds 255.
    fn fresh() -> StripSettings
        ensures { result ≡ fresh_strip }
    {
        StripSettings {
            valid: false,
            pedestal: 0,
            thresh1: 255,
            thresh2: 255,
        }
    }
}

impl FibreSettings {
    // Neither chip is read, nothing is inverted, T is 16, each strip is fresh, and rank settings are 128.
    pub fn fresh() -> FibreSettings
        ensures { result ≡ fresh_fibre }
    {
        FibreSettings {
            enable: Enable::Neither,
            complement: false,
            threshold: 16,
            strips: [StripSettings::fresh(); 256],
            ranks: Pair {
                left: 128,
                right: 128,
            },
        }
    }
}

impl CardSettings {
    // Zero suppression, and each fibre fresh.
    pub fn fresh() -> CardSettings
        ensures { result ≡ fresh_card }
    {
        CardSettings {
            mode: Mode::ZeroSuppression,
            fibres: [FibreSettings::fresh(); 12],
        }
    }
}
