// Taking an event's bytes out of a store.
ghost use Rattle.std.specs.Prelude.{◌≡◌, ◌<◌, ◌≤◌, ◌++◌, length, drop, slice_set};
ghost use Rattle.stores.specs.Store.{waiting};
ghost use Rattle.card_model.specs.Fibres.{for_fibres, in_fibre_order};
ghost use Rattle.card_model.specs.Readout.{event_length, taken_from, left_in};
ghost use Rattle.card.specs.Taking.{record_in, left_by};

use stores::Store;

// Takes the oldest bytes of a fibre, as many as `out` is long; where fewer wait, it becomes zeros.
// By the fibre's number, as the store has it: making a Fibre of it takes a branch that never runs.
fn take_record<S: Store>(store: &mut S, fibre: usize, out: &mut [u8])
    requires { fibre < 12 }
    ensures lists { S.lists store.new
        ≡ slice_set (S.lists store.old) fibre
        (left_in (length out.old) (waiting (S.lists store.old) fibre)) }
    ensures out { out.new ≡ taken_from (length out.old) (waiting (S.lists store.old) fibre) }
    ensures room { S.room store.new ≡ S.room store.old }
{
    if let Err(_) = store.take_all(fibre, out) {
        out.fill(0);
    }
}

// Takes an event whose records have these lengths: its twelve records one after the other, at the start of `out`.
pub(crate) fn take_event<S: Store>(store: &mut S, lengths: &[u16; 12], out: &mut [u8])
    requires { event_length lengths.now ≤ length out.old }
    ensures lists { S.lists store.new ≡ for_fibres (left_by lengths.now (S.lists store.old)) }
    ensures out { out.new
        ≡ in_fibre_order (record_in lengths.now (S.lists store.old))
        ++ drop (event_length lengths.now) out.old }
    ensures room { S.room store.new ≡ S.room store.old }
{
    // A place kept by hand: by it the proof says how much of `out` is written.
    let mut at = 0;
    for (f, length) in lengths.iter().enumerate() {
        let end = at + usize::from(*length);
        take_record(store, f, &mut out[at..end]);
        at = end;
    }
}
