// The lengths of an event's twelve records.
ghost use Rattle.std.specs.Prelude.{◌≡◌, ◌≤◌, length, sum};
ghost use Rattle.card_model.specs.Readout.{event_length};

// The length of the event.
pub(crate) fn event_length(lengths: &[u16; 12]) -> usize
    ensures { result ≡ event_length lengths.now }
{
    total(lengths)
}

// The sum of a few lengths.
fn total(lengths: &[u16]) -> usize
    requires { length lengths.now ≤ 12 }
    ensures { result ≡ sum lengths.now }
{
    lengths.iter().map(|length| usize::from(*length)).sum()
}
