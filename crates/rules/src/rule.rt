// What a common-mode rule is, and the narrower kind that follows a shift of its values.
ghost use Rattle.std.specs.Prelude.{◌≡◌, ℕ, ◌≤◌, List, MatchResult};
ghost use Rattle.terms.specs.declared.refusal.Refusal.TheVariants.{OutOfRange};
ghost use Rattle.rules.specs.Rules.{InRange, ShiftLaw};

use terms::Refusal;

// A rule answers a number up to 1023 for a chip, a rank setting and a list of values.
pub trait Rule {
    ghost meaning: { Self → ℕ → ℕ → List ℕ → ℕ };

    // The common mode of a chip with these values; 16 where chip, length or a value is out of range.
    fn estimate(&self, chip: usize, setting: u8, values: &[u16]) -> Result<u16, Refusal>
        ensures { MatchResult result (λ x. InRange chip values.now × (x ≡ meaning self.now chip setting values.now)) (λ e. (InRange chip values.now → ⊥) × (e ≡ OutOfRange)) };

    ghost bounded: { (rule : Self) (chip setting : ℕ) (vs : List ℕ) → InRange chip vs → meaning rule chip setting vs ≤ 1023 };
}

// A rule whose answer moves with its values.
pub trait ShiftRule: Rule {
    // The rule keeps the shift law.
    fn shifts(&self)
        ensures { ShiftLaw (Self.Rule.meaning self.now) };
}
