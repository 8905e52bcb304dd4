// A call of a card, with its arguments.
ghost use Rattle.std.specs.Prelude.{◌≡◌};
ghost use Rattle.card.specs.Carrying.{lent_to, lent_in, counted, bytes_question};

use terms::Refusal;

// One of the calls of a card. A Fetch comes with the length of its buffer.
#[derive(Clone, Copy)]
pub enum Call {
    Load(u32),
    Clock([u16; 12]),
    Ask,
    Fetch(usize),
    GiveBack,
    Level(usize),
    Reset,
}

impl Call {
    // How many bytes of a buffer the call is lent: those of a Fetch.
    pub(crate) fn lent(&self) -> usize
        ensures { result ≡ lent_to self.now }
    {
        match *self {
            Call::Fetch(long) => long,
            Call::Load(_)
            | Call::Clock(_)
            | Call::Ask
            | Call::GiveBack
            | Call::Level(_)
            | Call::Reset => 0,
        }
    }
}

// How many bytes a list of calls is lent together, if that is a number that a usize can hold.
fn lent_to_all(calls: &[Call]) -> Option<usize>
    ensures { result ≡ counted (lent_in calls.now) }
{
    calls
        .iter()
        .try_fold(0, |sum: usize, call| sum.checked_add(call.lent()))
}

// Are so many bytes as many as a list of calls is lent together? 11, with that number, one above the largest as that.
pub(crate) fn lent_enough(calls: &[Call], long: usize) -> Result<(), Refusal>
    ensures { result ≡ bytes_question (lent_in calls.now) long }
{
    let lent = lent_to_all(calls).ok_or(Refusal::BufferTooShort(usize::MAX))?;
    if lent > long {
        return Err(Refusal::BufferTooShort(lent));
    }
    Ok(())
}
