// The walk over a stored run.
use crate::arguments::What;
use crate::column::print_column;
use crate::contents::print_contents;
use crate::damage::Damage;
use crate::failure::Failure;
use reader::{Event, Survey, read_first};
use std::io::Write;

// A long run shows its progress once for so many events.
const PROGRESS_STEP: usize = 1000;

// Where a run is printed to, who is told of its progress, and how much of each event is printed.
#[derive(Drop)]
pub(crate) struct Printer<'a, O: Write, P: Eprint> {
    pub out: &'a mut O,
    pub progress: &'a P,
    pub what: What,
}

impl<O: Write, P: Eprint> Printer<'_, O, P> {
    // Prints the events of a run, and what the survey of it has found at their end.
    pub fn print_run(&mut self, run: &[u8], survey: Survey) -> Result<(), Failure> {
        let Survey { events, end, fault } = survey;
        if run.is_empty() {
            writeln!(self.out, "no events: the file is empty")?;
            return Ok(());
        }
        self.print_events(run, events)?;
        match fault {
            Some(fault) => {
                self.out.flush()?;
                Err(Failure::Damaged(Damage {
                    event: events,
                    start: end,
                    fault,
                }))
            }
            None => {
                writeln!(self.out, "{events} events, {end} bytes")?;
                Ok(())
            }
        }
    }

    // Prints so many events from the start of a run. The survey counted them and kept none, so each
    // is read again from what is left. By number: an iterator that stops at a fault could not name it.
    fn print_events(&mut self, run: &[u8], events: usize) -> Result<(), Failure> {
        let mut left = run;
        for index in 0..events {
            if index > 0 && index % PROGRESS_STEP == 0 {
                eprintln!(self.progress; "event {index} of {events}")?;
            }
            let start = run.len().saturating_sub(left.len());
            let (event, rest) = read_first(left).map_err(|fault| {
                Failure::Damaged(Damage {
                    event: index,
                    start,
                    fault,
                })
            })?;
            self.print_event(index, &event)?;
            left = rest;
        }
        Ok(())
    }

    fn print_event(&mut self, index: usize, event: &Event<'_>) -> Result<(), Failure> {
        let bytes = event.size();
        writeln!(self.out, "event {index}: {bytes} bytes")?;
        print_column(self.out, event)?;
        match self.what {
            What::Column => {}
            What::Everything => print_contents(self.out, event)?,
        }
        Ok(())
    }
}
