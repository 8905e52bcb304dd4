// What a ticker is for, over whole lines of samples: theorems that stand on no code but the step's
// definition.
ghost use Rattle.ticker.specs.Laws.{LocksOnMarks, FollowsAFrame, HearsAFrame, JudgedAlone, JudgedExactly};

// A ticker in Hunt locks on tick marks of period 70, and stays locked while they go on.
pub fn locks_on_marks_stands()
    ensures { LocksOnMarks }
{}

// A ticker Locked at 0 follows a frame that begins there: it pulses once, at the sixth sample, has
// the header of each enabled chip from position 24 on, and is Locked at 0 again after 280.
pub fn follows_a_frame_stands()
    ensures follows { FollowsAFrame }
    ensures hears { HearsAFrame }
{}

// States, pulses and headers depend on the judged samples alone, and a sample is judged only if its
// level matters.
pub fn judged_stands()
    ensures alone { JudgedAlone }
    ensures exactly { JudgedExactly }
{}
