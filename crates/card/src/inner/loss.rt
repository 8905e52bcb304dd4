// Whether a completed event is lost.
ghost use Rattle.std.specs.Prelude.{◌≡◌, ◌-◌, ◌<◌, length};
ghost use Rattle.stores.specs.Store.{level_of};
ghost use Rattle.card.specs.Event.{loss_by, loss_in_all};

use super::Core;
use crate::clocked::Loss;
use crate::waiting::MOST;
use stores::Store;

impl Core {
    // Why an event with records of these lengths is lost, if it is: do fewer events wait than can? 14. Does
    // each record fit the free room of its fibre? 15, with the lowest fibre whose record does not.
    pub(crate) fn loss<S: Store>(&self, store: &S, lengths: &[u16; 12]) -> Option<Loss>
        ensures { loss_in_all result
            ≡ loss_by (S.room store.now) (S.lists store.now)
            (length self.now.waiting) lengths.now }
    {
        if self.waiting.len() >= MOST {
            return Some(Loss::TooMany);
        }
        // A loop: of a find over the numbers of the fibres a proof did not close.
        for (f, length) in lengths.iter().enumerate() {
            if usize::from(*length) > free_room(store, f) {
                return Some(Loss::NoRoom(f));
            }
        }
        None
    }
}

// How many bytes fit behind those that wait on a fibre.
// By the fibre's number, as the store has it: making a Fibre of it takes a branch that never runs.
fn free_room<S: Store>(store: &S, f: usize) -> usize
    requires { f < 12 }
    ensures { result ≡ S.room store.now - level_of (S.lists store.now) f }
{
    store.capacity() - store.level(f).unwrap()
}
