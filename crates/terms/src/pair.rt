// What a fibre has of its two chips.
ghost use Rattle.std.specs.Prelude.{◌≡◌, ◌+◌, ◌*◌};
ghost use Rattle.terms.specs.Terms.{part, side_number};

// The left chip of a fibre (APV0) or the right one (APV1).
#[derive(Clone, Copy, Debug, PartialEq, Eq)]
pub enum Side {
    Left,
    Right,
}

// 0 for the left chip, 1 for the right one.
impl From<Side> for u8 {
    ghost from_gives = { λ side number. number ≡ side_number side };

    fn from(side: Side) -> u8 {
        match side {
            Side::Left => 0,
            Side::Right => 1,
        }
    }
}

// One value for the left chip and one for the right chip of a fibre.
#[derive(Clone, Copy, Debug, PartialEq, Eq)]
pub struct Pair<T> {
    pub left: T,
    pub right: T,
}

impl<T> Pair<T> {
    // The value of one side.
    pub fn of(&self, side: Side) -> &T
        ensures { result.now ≡ part self.now side }
    {
        match side {
            Side::Left => &self.left,
            Side::Right => &self.right,
        }
    }
}
