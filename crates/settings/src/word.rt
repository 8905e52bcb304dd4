// The word of a setting, and the setting that a word stands for.
ghost use Rattle.std.specs.Prelude.{◌≡◌, ◌+◌, ◌*◌, ◌^◌, ◌<◌, ◌≤◌, IfOk, IfErr};
ghost use Rattle.settings.specs.Fields.{bits as bits_of, flag as flag_of, kind as kind_of, fibre_field};
ghost use Rattle.settings.specs.Words.{decoded, enable_from, side_from};
ghost use Rattle.terms.specs.declared.refusal.Refusal.TheVariants.{NoSuchFibre};

use crate::mode::Mode;
use crate::parts::{Pedestal, Thresholds, TickThreshold};
use crate::setting::Setting;
use terms::{Enable, Fibre, Refusal, Side};

// A word has 32 bits. The top four are its kind, 1 to 5; kinds 2 to 5 have the fibre in bits 27 to 24.
#[derive(Clone, Copy)]
struct Word(u32);

// The fields of a word.
impl Word {
    // The bits from `high` down to `low`, as a number.
    fn bits(self, high: u32, low: u32) -> u32
        requires ordered { low ≤ high }
        requires narrow { high < low + 31 }
        requires inside { high < 32 }
        ensures { result ≡ bits_of high low self.0 }
    {
        (self.0 >> low) & ((1 << (high + 1 - low)) - 1)
    }

    // The bit at one place.
    fn flag(self, place: u32) -> bool
        requires { place < 32 }
        ensures { result ≡ flag_of place self.0 }
    {
        self.bits(place, place) == 1
    }

    // The top four bits.
    fn kind(self) -> u32
        ensures { result ≡ kind_of self.0 }
    {
        self.bits(31, 28)
    }

    // Of kinds 2 to 5: the fibre in bits 27 to 24; 3 where there is none.
    fn fibre(self) -> Result<Fibre, Refusal>
        ensures taken { IfOk result (λ f. f.index ≡ fibre_field self.0) }
        ensures refused { IfErr result (λ e. (12 ≤ fibre_field self.0) × (e ≡ NoSuchFibre)) }
    {
        Fibre::new(self.bits(27, 24) as usize)
    }

    // Of kinds 3 and 4: the strip in bits 23 to 16.
    fn strip(self) -> u8
        ensures { result ≡ bits_of 23 16 self.0 }
    {
        self.bits(23, 16) as u8
    }

    // Of kind 2: the left chip's bit 7, then the right chip's bit 6.
    fn enable(self) -> Enable
        ensures { result ≡ enable_from (bits_of 7 6 self.0) }
    {
        match (self.flag(7), self.flag(6)) {
            (false, false) => Enable::Neither,
            (false, true) => Enable::Right,
            (true, false) => Enable::Left,
            (true, true) => Enable::Both,
        }
    }

    // Of kind 5: the side in bit 16, a 1 is right.
    fn side(self) -> Side
        ensures { result ≡ side_from (flag_of 16 self.0) }
    {
        if self.flag(16) {
            Side::Right
        } else {
            Side::Left
        }
    }
}

// The setting of a word of each kind.
impl Word {
    // Kind 1: the mode in bits 4 to 0.
    fn mode_setting(self) -> Result<Setting, Refusal>
        requires { kind_of self.0 ≡ 1 }
        ensures { result ≡ decoded self.0 }
    {
        if self.bits(27, 5) != 0 {
            return Err(Refusal::UnusedBits);
        }
        let mode = Mode::try_from(self.bits(4, 0) as u8)?;
        Ok(Setting::Mode(mode))
    }

    // Kind 2: the enable in bits 7 and 6, the complement flag in bit 5, the tick threshold in bits 4 to 0.
    fn tick_setting(self) -> Result<Setting, Refusal>
        requires { kind_of self.0 ≡ 2 }
        ensures { result ≡ decoded self.0 }
    {
        let fibre = self.fibre()?;
        if self.bits(23, 8) != 0 {
            return Err(Refusal::UnusedBits);
        }
        Ok(Setting::Tick {
            fibre,
            enable: self.enable(),
            complement: self.flag(5),
            threshold: TickThreshold {
                value: self.bits(4, 0) as u8,
            },
        })
    }

    // Kind 3: the strip in bits 23 to 16, the valid flag in bit 10, the pedestal in bits 9 to 0.
    fn pedestal_setting(self) -> Result<Setting, Refusal>
        requires { kind_of self.0 ≡ 3 }
        ensures { result ≡ decoded self.0 }
    {
        let fibre = self.fibre()?;
        if self.bits(15, 11) != 0 {
            return Err(Refusal::UnusedBits);
        }
        Ok(Setting::Pedestal {
            fibre,
            strip: self.strip(),
            valid: self.flag(10),
            pedestal: Pedestal {
                value: self.bits(9, 0) as u16,
            },
        })
    }

    // Kind 4: the strip in bits 23 to 16, thresh2 in bits 15 to 8, thresh1 in bits 7 to 0.
    fn thresholds_setting(self) -> Result<Setting, Refusal>
        requires { kind_of self.0 ≡ 4 }
        ensures { result ≡ decoded self.0 }
    {
        let fibre = self.fibre()?;
        let thresholds = Thresholds::new(self.bits(7, 0) as u8, self.bits(15, 8) as u8)?;
        Ok(Setting::Thresholds {
            fibre,
            strip: self.strip(),
            thresholds,
        })
    }

    // Kind 5: the side in bit 16, the rank setting in bits 7 to 0.
    fn rank_setting(self) -> Result<Setting, Refusal>
        requires { kind_of self.0 ≡ 5 }
        ensures { result ≡ decoded self.0 }
    {
        let fibre = self.fibre()?;
        if self.bits(23, 17) != 0 || self.bits(15, 8) != 0 {
            return Err(Refusal::UnusedBits);
        }
        Ok(Setting::Rank {
            fibre,
            side: self.side(),
            rank: self.bits(7, 0) as u8,
        })
    }
}

// The setting that a word stands for; else the refusal of the first question that is answered no.
// A word that is taken is the word of the setting that it stands for.
impl TryFrom<u32> for Setting {
    ghost use Rattle.settings.specs.Words.{Decodes};

    type Error = Refusal;

    ghost try_from_gives = { Decodes };

    fn try_from(word: u32) -> Result<Setting, Refusal> {
        let word = Word(word);
        match word.kind() {
            1 => word.mode_setting(),
            2 => word.tick_setting(),
            3 => word.pedestal_setting(),
            4 => word.thresholds_setting(),
            5 => word.rank_setting(),
            _ => Err(Refusal::UnknownSetting),
        }
    }
}

// The word of a setting, which stands for it.
impl From<Setting> for u32 {
    ghost use Rattle.settings.specs.Words.{Encodes};

    ghost from_gives = { Encodes };

    fn from(setting: Setting) -> u32 {
        match setting {
            Setting::Mode(mode) => (1 << 28) + u32::from(u8::from(mode)),
            Setting::Tick {
                fibre,
                enable,
                complement,
                threshold,
            } => {
                head(2, fibre)
                    + (u32::from(u8::from(enable)) << 6)
                    + (u32::from(complement) << 5)
                    + u32::from(threshold.value)
            }
            Setting::Pedestal {
                fibre,
                strip,
                valid,
                pedestal,
            } => {
                head(3, fibre)
                    + (u32::from(strip) << 16)
                    + (u32::from(valid) << 10)
                    + u32::from(pedestal.value)
            }
            Setting::Thresholds {
                fibre,
                strip,
                thresholds,
            } => {
                head(4, fibre)
                    + (u32::from(strip) << 16)
                    + (u32::from(thresholds.thresh2) << 8)
                    + u32::from(thresholds.thresh1)
            }
            Setting::Rank { fibre, side, rank } => {
                head(5, fibre) + (u32::from(u8::from(side)) << 16) + u32::from(rank)
            }
        }
    }
}

// The kind and the fibre of a word.
fn head(kind: u32, fibre: Fibre) -> u32
    requires { kind < 16 }
    ensures { result ≡ kind * 2 ^ 28 + fibre.index * 2 ^ 24 }
{
    (kind << 28) + ((fibre.index() as u32) << 24)
}
