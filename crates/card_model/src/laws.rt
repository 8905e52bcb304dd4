// The laws of a card over every list of calls, for those who build on it.
ghost use Rattle.card_model.specs.InStep.{StepsStay};
ghost use Rattle.card_model.specs.Laws.{BalanceLaw, EarlyLaw, TwinLaw, ThreeLaws};
ghost use Rattle.card_model.specs.Waiting.{ReadoutLaws, EventsOfTheLayout};

// Where the rule keeps the shift law, a shifted twin answers every call like the card, but for the common
// modes in the bytes of a Fetch, which differ by the constants.
pub fn twins_answer_alike()
    ensures { TwinLaw }
{}

// The lengths announced by Kept are the bytes fetched and the twelve levels.
pub fn bytes_balance()
    ensures { BalanceLaw }
{}

// A zero-suppressed event that finds only a few such events waiting is kept.
pub fn no_early_loss()
    ensures { EarlyLaw }
{}

// The three laws together, over every rule, every capacity and every list of calls.
pub fn three_laws()
    ensures { ThreeLaws }
{}

// While a capture runs, each fibre in step is inside its frame at the capture's position, so that what its
// ticker hears as the header are the samples of the capture's positions 6 to 23.
pub fn fibres_stay_in_step()
    ensures { StepsStay }
{}

// What waits is what was kept and not fetched, in order; a slip out means that an event waits; a Fetch
// gives the oldest; rank settings keep eight bits.
pub fn readout_stands()
    ensures { ReadoutLaws }
{}

// Every event that a Fetch gives is one of the layout, so that the reader accepts it.
pub fn events_of_the_layout()
    ensures { EventsOfTheLayout }
{}
