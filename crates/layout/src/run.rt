// The strips that a cluster covers: the first one, and how many.
ghost use Rattle.std.specs.Prelude.{◌≡◌, ℕ, ◌+◌, ◌/◌, ◌%◌};
ghost use Rattle.layout.specs.Places.{placed, apart};

#[derive(Clone, Copy, Debug, Default, PartialEq, Eq)]
pub struct Run {
    pub address: u8,
    pub strips: u8,
}

impl Run {
    // Whether it has a strip and lies within its chip.
    pub fn lies_in_chip(self) -> bool
        ensures { result ≡ placed self }
    {
        let on_chip = self.address % 128;
        self.strips >= 1 && self.strips <= 128 && on_chip + self.strips <= 128
    }

    // Whether it lies behind another, with two strips free between them where both are on one chip.
    pub fn lies_behind(self, before: Run) -> bool
        ensures { result ≡ apart before self }
    {
        let end = u16::from(before.address) + u16::from(before.strips);
        before.address < self.address
            && (before.address / 128 != self.address / 128 || end + 2 <= u16::from(self.address))
    }
}
