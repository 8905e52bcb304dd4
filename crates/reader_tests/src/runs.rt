// Stored runs: events one after the other.
use crate::events::{push_raw, push_suppressed};
use faults::{EventFault, RecordFault};
use reader::{Survey, read_first, survey_run};
use std::test::Fail;

// A survey of so many events.
fn whole(events: usize, end: usize) -> Survey {
    Survey {
        events,
        end,
        fault: None,
    }
}

#[test]
fn run_of_three_events(rt: HostRuntime) -> Result<(), Fail> {
    let mut run = Vec::new(rt.alloc());
    assert_eq!(rt; survey_run(run.as_slice()), whole(0, 0));
    push_suppressed(&mut run)?;
    push_raw(&mut run, 0xF2)?;
    push_suppressed(&mut run)?;
    assert_eq!(rt; survey_run(run.as_slice()), whole(3, 6388));
    let (event, rest) = read_first(run.as_slice())?;
    assert_eq!(rt; event.size(), 104);
    assert_eq!(rt; rest.len(), 6284);
    assert!(rt; run.len() == 6388);
    run[6297] = 0xF2;
    let damaged = Survey {
        events: 2,
        end: 6284,
        fault: Some(EventFault::Record(RecordFault::OtherKind(13))),
    };
    assert_eq!(rt; survey_run(run.as_slice()), damaged);
    Ok(())
}
