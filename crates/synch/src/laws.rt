// What a vote is for: theorems that stand on its definition.
ghost use Rattle.synch.specs.Laws.{AgreedHeader, OnlyVotersCount, WorkedExamples};

// The majority header is that of the voters where they agree, and no fibre out of step and no chip
// that is not enabled can change it.
pub fn majority_header_stands()
    ensures agreed { AgreedHeader }
    ensures voters { OnlyVotersCount }
{}

// Worked examples.
pub fn examples_stand()
    ensures { WorkedExamples }
{}
