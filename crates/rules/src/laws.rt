// What is known of the rules beyond their answers, for those who build on them.
ghost use Rattle.rules.specs.Rules.{RankLaws, StaysBetween, ShiftLaw, FixedLacksLaw, WorkedExamples, rank, mean};

// The rank rule's answer has the position that the setting asks for, no other number has it, and it is
// one of the values. It lies between the lowest and the highest, and moves with the values.
pub fn rank_stands()
    ensures position { RankLaws }
    ensures between { StaysBetween rank }
    ensures shifts { ShiftLaw rank }
{}

// The mean lies between the lowest and the highest value, and moves with the values.
pub fn mean_stands()
    ensures between { StaysBetween mean }
    ensures shifts { ShiftLaw mean }
{}

// The fixed rule does not move with the values.
pub fn fixed_lacks_the_law()
    ensures { FixedLacksLaw }
{}

// The worked examples.
pub fn examples_stand()
    ensures { WorkedExamples }
{}
