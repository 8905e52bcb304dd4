// What the program is asked to do.
use crate::failure::Failure;
use std::env;

const COLUMN_OPTION: &str = "--column";

// How much of each event is printed.
#[derive(Clone, Copy)]
pub enum What {
    Column,
    Everything,
}

#[derive(Drop)]
pub struct Arguments {
    pub what: What,
    pub file: String,
}

// Reads the arguments: one file, and an option before or behind it.
pub(crate) fn read_arguments(rt: &HostRuntime) -> Result<Arguments, Failure> {
    let words = env::args(rt).map_err(|_| Failure::NoMemory)?;
    let mut what = What::Everything;
    let mut file = None;
    for word in words.skip(1) {
        if word.as_str() == COLUMN_OPTION {
            what = What::Column;
        } else if word.as_str().starts_with("-") {
            return Err(Failure::UnknownOption(word));
        } else if file.is_some() {
            return Err(Failure::SecondFile(word));
        } else {
            file = Some(word);
        }
    }
    let file = file.ok_or(Failure::NoFile)?;
    Ok(Arguments { what, file })
}
