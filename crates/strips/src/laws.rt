// What is known of the records beyond their bytes: theorems for those who build on them.
ghost use Rattle.strips.specs.Order.{OneToOne};
ghost use Rattle.strips.specs.Laws.{RecordsOfTheLayout, ShiftsRecords};
ghost use Rattle.strips.specs.Examples.{WorkedExamples};

// Each of 256 places has its own strip, and each strip its own place.
pub fn order_stands()
    ensures { OneToOne }
{}

// Every record formed is one of the layout, and for a rule that keeps the shift law shifted samples give
// shifted records.
pub fn records_stand()
    ensures layout { RecordsOfTheLayout }
    ensures shift { ShiftsRecords }
{}

// The worked examples.
pub fn examples_stand()
    ensures { WorkedExamples }
{}
