// Carrying out a setting.
ghost use Rattle.std.specs.Prelude.{◌≡◌};
ghost use Rattle.settings.specs.Settings.{applied, with_tick, with_pedestal, with_thresholds, with_rank};

use crate::card::CardSettings;
use crate::fibre::FibreSettings;
use crate::parts::{Pedestal, Thresholds, TickThreshold};
use crate::setting::Setting;
use terms::{Enable, Side};

impl CardSettings {
    // Changes what the setting names, and nothing else.
    pub fn apply(&mut self, setting: Setting)
        ensures { self.new ≡ applied setting self.old }
    {
        match setting {
            Setting::Mode(mode) => self.mode = mode,
            Setting::Tick {
                fibre,
                enable,
                complement,
                threshold,
            } => self.fibres[fibre.index()].set_tick(enable, complement, threshold),
            Setting::Pedestal {
                fibre,
                strip,
                valid,
                pedestal,
            } => self.fibres[fibre.index()].set_pedestal(strip, valid, pedestal),
            Setting::Thresholds {
                fibre,
                strip,
                thresholds,
            } => self.fibres[fibre.index()].set_thresholds(strip, thresholds),
            Setting::Rank { fibre, side, rank } => self.fibres[fibre.index()].set_rank(side, rank),
        }
    }
}

impl FibreSettings {
    fn set_tick(&mut self, enable: Enable, complement: bool, threshold: TickThreshold)
        ensures { self.new ≡ with_tick enable complement threshold.value self.old }
    {
        self.enable = enable;
        self.complement = complement;
        self.threshold = threshold.value;
    }

    fn set_pedestal(&mut self, strip: u8, valid: bool, pedestal: Pedestal)
        ensures { self.new ≡ with_pedestal strip valid pedestal.value self.old }
    {
        let settings = &mut self.strips[usize::from(strip)];
        settings.valid = valid;
        settings.pedestal = pedestal.value;
    }

    fn set_thresholds(&mut self, strip: u8, thresholds: Thresholds)
        ensures { self.new ≡ with_thresholds strip thresholds.thresh1 thresholds.thresh2 self.old }
    {
        let settings = &mut self.strips[usize::from(strip)];
        settings.thresh1 = thresholds.thresh1;
        settings.thresh2 = thresholds.thresh2;
    }

    fn set_rank(&mut self, side: Side, rank: u8)
        ensures { self.new ≡ with_rank side rank self.old }
    {
        match side {
            Side::Left => self.ranks.left = rank,
            Side::Right => self.ranks.right = rank,
        }
    }
}
