// What is proved of the layout itself: each contract is a theorem.
ghost use Rattle.layout.specs.Laws.{Laws, WorkedExamples};

// Packet codes tell the kinds apart, records have lengths in the range of their kind, and a fibre has at most 86 clusters.
pub fn laws_stand()
    ensures { Laws }
{}

// Records byte by byte, and places of clusters.
pub fn worked_examples_stand()
    ensures { WorkedExamples }
{}
