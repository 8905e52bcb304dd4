// The right to one event: Ask gives a slip out, Fetch and Give back take it.
ghost use Rattle.std.specs.Prelude.{◌≡◌, true, false};

use terms::Refusal;

// A slip that is not spent cannot be let go.
pub struct Slip {
    pub(crate) length: usize,
    // A flag, which its drop asks for: two kinds of slips would be told apart there as well.
    pub(crate) spent: bool,
}

impl Drop for Slip {
    fn drop(self)
        requires { self.spent ≡ true }
    {
        let Slip {
            length: _,
            spent: _,
        } = self;
    }
}

impl Slip {
    // A slip for an event of a length.
    pub(crate) fn new(length: usize) -> Slip
        ensures length { result.length ≡ length }
        ensures spent { result.spent ≡ false }
    {
        Slip {
            length,
            spent: false,
        }
    }

    // The length of the event.
    pub fn length(&self) -> usize
        ensures { result ≡ self.now.length }
    {
        self.length
    }

    // Spends the slip.
    pub(crate) fn spend(mut self) {
        self.spent = true;
    }
}

// A call that was refused hands its slip back.
pub struct Refused {
    pub slip: Slip,
    pub refusal: Refusal,
}

impl Refused {
    // Spends the slip, and tells why the call was refused.
    pub(crate) fn spend(self) -> Refusal
        ensures { result ≡ self.refusal }
    {
        let Refused { slip, refusal } = self;
        slip.spend();
        refusal
    }
}
