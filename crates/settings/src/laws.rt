// What holds of setting words over whole runs, and worked examples.
ghost use Rattle.settings.specs.Examples.{WorkedExamples};
ghost use Rattle.settings.specs.Force.{StaysInForce, FreshStays, StaysInRange};

// Some words are taken and some refused, each by its number.
pub fn examples_stand()
    ensures { WorkedExamples }
{}

// A setting is in force from its word on until one of the same place comes; until then what a fresh card has.
// Whatever comes, the numbers that are kept are in range.
pub fn settings_stay()
    ensures in_force { StaysInForce }
    ensures fresh { FreshStays }
    ensures in_range { StaysInRange }
{}
