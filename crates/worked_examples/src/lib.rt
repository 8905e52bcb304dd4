// The worked examples of every layer under one statement.
#![tactic(auto)]

ghost use Rattle.worked_examples.specs.Examples.{WorkedExamples};

// Each layer shows its own; together they are one theorem.
pub fn worked_examples_stand()
    ensures { WorkedExamples }
{
    settings::laws::examples_stand();
    synch::laws::examples_stand();
    strips::laws::examples_stand();
    rules::examples_stand();
    layout::laws::worked_examples_stand();
    reader::laws::worked_examples_stand();
}
