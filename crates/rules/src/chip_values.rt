// The values of a chip's strips that a rule can be asked about.
ghost use Rattle.std.specs.Prelude.{◌≡◌, ◌≤◌, ◌↔◌, IsTrue, IfOk, IfErr};
ghost use Rattle.std.specs.List.{AllByRecursion};
ghost use Rattle.std.proofs.Props.{props};
ghost use Rattle.terms.specs.declared.refusal.Refusal.TheVariants.{OutOfRange};
ghost use Rattle.rules.specs.Rules.{InRange};

use terms::{CHIP_STRIPS, CHIPS, LARGEST, Refusal};

#[derive(Clone, Copy)]
pub(crate) struct ChipValues<'a> {
    pub(crate) chip: usize,
    pub(crate) values: &'a [u16],
    ghost in_range: { InRange chip values.now } by { Prim.hlevel props },
}

impl<'a> ChipValues<'a> {
    // The one question that every rule asks first.
    pub(crate) fn new(chip: usize, values: &'a [u16]) -> Result<ChipValues<'a>, Refusal>
        ensures chip { IfOk result (λ asked. asked.chip ≡ chip) }
        ensures values { IfOk result (λ asked. asked.values ≡ values.entry) }
        ensures refused { IfErr result (λ e. (InRange chip values.now → ⊥) × (e ≡ OutOfRange)) }
    {
        let length = values.len();
        if chip < CHIPS && 1 <= length && length <= CHIP_STRIPS && ten_bits(values) {
            Ok(ChipValues { chip, values })
        } else {
            Err(Refusal::OutOfRange)
        }
    }
}

// Whether no value has more than ten bits. The highest of all tells it faster than a search for one that has.
fn ten_bits(values: &[u16]) -> bool
    ensures { IsTrue result ↔ AllByRecursion (λ v. v ≤ 1023) values.now }
{
    values.iter().copied().fold(0, u16::max) <= LARGEST
}
