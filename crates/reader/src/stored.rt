// A stored run: events one after the other.
ghost use Rattle.reader.specs.Surveys.{Surveyed};

use crate::event::reading::read_first;
use faults::EventFault;

// What a walk over a stored run has found: how many events, the offset behind them, and the fault that
// ended the walk before the end of the run. The fault's offset counts from the start of its event.
#[derive(Clone, Copy, Debug, PartialEq, Eq)]
pub struct Survey {
    pub events: usize,
    pub end: usize,
    pub fault: Option<EventFault>,
}

// Walks over a stored run.
pub fn survey_run(run: &[u8]) -> Survey
    ensures { Surveyed run.now result }
{
    let mut survey = Survey {
        events: 0,
        end: 0,
        fault: None,
    };
    let mut left = run;
    // A `while`: an iterator would end alike at the end and at a fault, and the fault is answered.
    while !left.is_empty() {
        match read_first(left) {
            Ok((event, rest)) => {
                survey.events += 1;
                survey.end += event.size();
                left = rest;
            }
            Err(fault) => {
                survey.fault = Some(fault);
                return survey;
            }
        }
    }
    survey
}
