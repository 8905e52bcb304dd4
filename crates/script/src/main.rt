// Answers a call script: reads it on the standard input, and prints what each call answered.
#![tactic(auto)]

mod answers;
mod cards;
mod estimates;
mod events;
mod failure;
mod held_store;
mod session;

use failure::Failure;
use session::answer_script;
use std::io::{BufWriter, Read, Write};
use std::process::ExitCode;
use stores::{ByteRing, WordRing};

fn script(rt: &HostRuntime) -> Result<(), Failure> {
    let mut script = Vec::new(rt.alloc());
    rt.stdin()
        .read_to_end(&mut script)
        .map_err(Failure::Unreadable)?;
    let mut out = BufWriter::new(rt.alloc(), rt.stdout())?;
    let result = answer_script::<ByteRing<'static>, WordRing<'static>, _>(
        rt.alloc(),
        script.as_slice(),
        &mut out,
    );
    out.flush()?;
    result
}

fn main(rt: HostRuntime) -> ExitCode {
    match script(&rt) {
        Ok(()) => ExitCode::SUCCESS,
        Err(failure) => {
            let _ = eprintln!(rt; "script: {failure}");
            ExitCode::FAILURE
        }
    }
}
