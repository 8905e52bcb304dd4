// A list of calls on two stores of any make.
ghost use Rattle.std.specs.Prelude.{◌≡◌, min, true, length, is_ok};
ghost use Rattle.stores.specs.Runs.{row_question, Ran, Alike};

use crate::call::{StoreAnswer, StoreCall};
use crate::run::carry_out_all;
use crate::store::Store;
use terms::Refusal;

// Carries out a list of calls on two stores of any make, and writes what each store answered into its row:
// are both rows long enough? 11. Stores of one capacity and equal lists answer alike.
pub fn carry_out_on_both<S: Store, T: Store>(
    one: &mut S,
    other: &mut T,
    calls: &[StoreCall],
    ones: &mut [StoreAnswer],
    others: &mut [StoreAnswer],
) -> Result<(), Refusal>
    ensures answer { result ≡ row_question (length calls.now) (min (length ones.old) (length others.old)) }
    ensures one { Ran (S.room one.old) (S.lists one.old) calls.now ones.old (is_ok result)
        (S.room one.new) (S.lists one.new) ones.new }
    ensures other { Ran (T.room other.old) (T.lists other.old) calls.now others.old (is_ok result)
        (T.room other.new) (T.lists other.new) others.new }
    ensures alike { is_ok result ≡ true → S.room one.old ≡ T.room other.old → S.lists one.old ≡ T.lists other.old
        → Alike (length calls.now) ones.new others.new (S.lists one.new) (T.lists other.new) }
{
    if ones.len().min(others.len()) < calls.len() {
        return Err(Refusal::BufferTooShort(calls.len()));
    }
    carry_out_all(one, calls, ones)?;
    carry_out_all(other, calls, others)
}
