// A pair of runs, so that the law of twins is not empty.
ghost use Rattle.worked_runs.specs.Runs.{WorkedTwins};

// A card and its twin keep an event and lose another; the one kept differs in its common modes alone, by +7
// on the left chip and −5 on the right one.
pub fn worked_twins_stand()
    ensures { WorkedTwins }
{}
