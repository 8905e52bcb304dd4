// The parts of a setting whose range is narrower than that of their bits, or of the type that holds them.
ghost use Rattle.std.specs.Prelude.{◌≡◌, ◌<◌, true, false, IfOk, IfErr};
ghost use Rattle.settings.specs.Order.{in_order};
ghost use Rattle.terms.specs.declared.refusal.Refusal.TheVariants.{ThresholdOrder};

use terms::Refusal;

// The tick threshold T of a fibre, 0 to 31. It and a pedestal are types of their own: a common one would need
// a trait over `u8` and `u16`, and its name would say less.
#[derive(Clone, Copy)]
pub struct TickThreshold {
    pub value: u8,
    ghost small: { value < 32 },
}

// The pedestal of a strip, 0 to 1023.
#[derive(Clone, Copy)]
pub struct Pedestal {
    pub value: u16,
    ghost small: { value < 1024 },
}

// The two thresholds of a strip: thresh2 is above thresh1, or both are 255.
#[derive(Clone, Copy)]
pub struct Thresholds {
    pub thresh1: u8,
    pub thresh2: u8,
    ghost ordered: { in_order thresh1 thresh2 ≡ true },
}

impl Thresholds {
    // Two thresholds; 6 where they are not in order.
    pub fn new(thresh1: u8, thresh2: u8) -> Result<Thresholds, Refusal>
        ensures taken { IfOk result (λ t. (t.thresh1 ≡ thresh1) × (t.thresh2 ≡ thresh2)) }
        ensures refused { IfErr result
            (λ e. (in_order thresh1 thresh2 ≡ false) × (e ≡ ThresholdOrder)) }
    {
        if thresh1 < thresh2 || (thresh1 == 255 && thresh2 == 255) {
            Ok(Thresholds { thresh1, thresh2 })
        } else {
            Err(Refusal::ThresholdOrder)
        }
    }
}
