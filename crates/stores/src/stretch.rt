// A part of a ring: from a place on, in the row of places from `first` to `end`, and round at the end.
ghost use Rattle.std.specs.Prelude.{◌≡◌, ◌-◌, ◌≤◌, min};

#[derive(Drop)]
pub struct Stretch {
    pub first: usize,
    pub end: usize,
    pub place: usize,
    ghost low: { first ≤ place },
    ghost high: { place ≤ end },
}

impl Stretch {
    // How many of `count` bytes lie before the end.
    pub(crate) fn before_end(&self, count: usize) -> usize
        ensures { result ≡ min count (self.now.end - self.now.place) }
    {
        count.min(self.end - self.place)
    }
}
