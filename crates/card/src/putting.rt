// The records of an event go into the store.
ghost use Rattle.std.specs.Prelude.{◌≡◌, ◌++◌};
ghost use Rattle.stores.specs.Store.{waiting};
ghost use Rattle.card_model.specs.Fibres.{for_fibres};
ghost use Rattle.card_model.specs.Readout.{record_of, lengths_of};
ghost use Rattle.card.specs.Event.{FitsAll};

use crate::record::Record;
use stores::Store;

// Puts each record behind what waits on its fibre.
pub(crate) fn put_records<S: Store>(store: &mut S, records: &[Record; 12])
    requires { FitsAll (S.room store.old) (S.lists store.old) (lengths_of records.now) }
    ensures lists { S.lists store.new
        ≡ for_fibres (λ f. waiting (S.lists store.old) f ++ record_of records.now f) }
    ensures room { S.room store.new ≡ S.room store.old }
{
    for (f, record) in records.iter().enumerate() {
        store.put_all(f, record.as_slice()).unwrap();
    }
}
