// Takes a stored run apart: `keep [--column] FILE` prints for each event the crew's column and what its records hold.
#![tactic(auto)]

mod arguments;
mod column;
mod contents;
mod damage;
mod failure;
mod walk;

use arguments::{Arguments, read_arguments};
use failure::Failure;
use reader::survey_run;
use std::fs;
use std::io::{BufWriter, Write};
use std::process::ExitCode;
use walk::Printer;

fn keep(rt: &HostRuntime) -> Result<(), Failure> {
    let Arguments { what, file } = read_arguments(rt)?;
    let run = fs::read(rt, file.as_str()).map_err(|error| Failure::Unreadable(file, error))?;
    let survey = survey_run(run.as_slice());
    let mut out = BufWriter::new(rt.alloc(), rt.stdout())?;
    let mut printer = Printer {
        out: &mut out,
        progress: rt,
        what,
    };
    printer.print_run(run.as_slice(), survey)?;
    out.flush()?;
    Ok(())
}

fn main(rt: HostRuntime) -> ExitCode {
    match keep(&rt) {
        Ok(()) => ExitCode::SUCCESS,
        Err(failure) => {
            let _ = eprintln!(rt; "keep: {failure}");
            ExitCode::FAILURE
        }
    }
}
