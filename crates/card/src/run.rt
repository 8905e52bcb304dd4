// A list of calls, carried out on a new card.
ghost use Rattle.std.specs.Prelude.{◌≡◌, length};
ghost use Rattle.card.specs.Carrying.{newest_first, carry_questions, RunOut};
ghost use Rattle.card.specs.CardLaws.{LawsOf};

use crate::answer::Answer;
use crate::call::Call;
use crate::card::Card;
use rules::{Rule, ShiftRule};
use stores::Store;
use terms::Refusal;

// Makes a card over a rule that keeps the shift law and a store, and carries out a list of calls from there: the
// answers are those of the card's definition, and the three laws hold of the list.
pub fn run_calls<R: ShiftRule + Drop, S: Store + Drop>(
    rule: R,
    store: S,
    calls: &[Call],
    answers: &mut [Result<Answer, Refusal>],
    bytes: &mut [u8],
) -> Result<(), Refusal>
    ensures answer { result ≡ carry_questions calls.now (length answers.old) (length bytes.old) }
    ensures run { RunOut (R.meaning rule) (S.room store) calls.now answers.old bytes.old
        answers.new bytes.new result }
    ensures laws { LawsOf (R.meaning rule) (S.room store) (newest_first calls.now) }
{
    rule.shifts();
    let mut card = Card::new(rule, store);
    card.carry_out(calls, answers, bytes)
}
