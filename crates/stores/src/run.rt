// Lists of calls, carried out on any store.
ghost use Rattle.std.specs.Prelude.{◌≡◌, true, length, is_ok};
ghost use Rattle.stores.specs.Runs.{answer_to, lists_after, row_question, Ran, FirstInFirstOut, WorkedExamples};

use crate::call::{StoreAnswer, StoreCall, StoreReply};
use crate::store::Store;
use terms::Refusal;

// Carries out a call, and answers what it answered.
pub fn carry_out<S: Store>(store: &mut S, call: StoreCall) -> StoreAnswer
    ensures answer { result ≡ answer_to (S.room store.old) (S.lists store.old) call }
    ensures lists { S.lists store.new ≡ lists_after (S.room store.old) (S.lists store.old) call }
    ensures room { S.room store.new ≡ S.room store.old }
{
    Ok(match call {
        StoreCall::Put(fibre, byte) => {
            store.put(fibre, byte)?;
            StoreReply::Done
        }
        StoreCall::Take(fibre) => StoreReply::Byte(store.take(fibre)?),
        StoreCall::Level(fibre) => StoreReply::Count(store.level(fibre)?),
        StoreCall::Capacity => StoreReply::Count(store.capacity()),
        StoreCall::Clear => {
            store.clear();
            StoreReply::Done
        }
    })
}

// Carries out a list of calls, and writes what each answered into a lent row: is it long enough? 11.
pub fn carry_out_all<S: Store>(
    store: &mut S,
    calls: &[StoreCall],
    answers: &mut [StoreAnswer],
) -> Result<(), Refusal>
    ensures answer { result ≡ row_question (length calls.now) (length answers.old) }
    ensures run { Ran (S.room store.old) (S.lists store.old) calls.now answers.old (is_ok result)
        (S.room store.new) (S.lists store.new) answers.new }
    ensures order { is_ok result ≡ true
        → FirstInFirstOut (S.lists store.old) calls.now answers.new (S.lists store.new) }
{
    if answers.len() < calls.len() {
        return Err(Refusal::BufferTooShort(calls.len()));
    }
    // By place: what is written through a zip is not known to the proof.
    for (i, call) in calls.iter().enumerate() {
        answers[i] = carry_out(store, *call);
    }
    Ok(())
}

// What the definitions say of some calls and some memory, worked out.
pub fn worked_examples()
    ensures { WorkedExamples }
{}
