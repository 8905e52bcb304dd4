// What the reader's questions amount to, for those who build on them.
ghost use Rattle.reader.specs.Examples.{WorkedExamples};
ghost use Rattle.reader.specs.Asked.{OneContent, OneEvent};
ghost use Rattle.reader.specs.Laws.{ComesBack, ExactlyInFront, ExactlyTheLayout, ExactlyTheRun, UpToTheDamage};

// An input is read as an event if and only if its bytes are those of that event; so is the front of a longer
// one, and what was written comes back.
pub fn layout_stands()
    ensures exactly { ExactlyTheLayout }
    ensures front { ExactlyInFront }
    ensures back { ComesBack }
{}

// All of a stored run is read if and only if it is events one after the other; of a damaged one, the events
// before the damage.
pub fn run_stands()
    ensures exactly { ExactlyTheRun }
    ensures damaged { UpToTheDamage }
{}

// An event and a record have the only value that their bytes can stand for.
pub fn parts_stand()
    ensures event { OneEvent }
    ensures content { OneContent }
{}

// A record worked by hand.
pub fn worked_examples_stand()
    ensures { WorkedExamples }
{}
