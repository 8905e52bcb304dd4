// A bit of a header byte.
ghost use Rattle.std.specs.Prelude.{◌<◌};

// Its place, 0 for the lowest bit.
#[derive(Clone, Copy)]
pub struct Bit {
    pub place: u8,
    ghost below: { place < 8 },
}
