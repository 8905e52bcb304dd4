// What ends the program with status 1, in words.
use crate::damage::Damage;
use std::{fmt, io};

const USAGE: &str = "usage: keep [--column] FILE";

#[derive(Drop)]
pub enum Failure {
    NoFile,
    UnknownOption(String),
    SecondFile(String),
    NoMemory,
    // The file cannot be read.
    Unreadable(String, io::Error),
    // The output cannot be written.
    Unwritable(io::Error),
    // The run is damaged.
    Damaged(Damage),
}

impl fmt::Display for Failure {
    fn fmt<W: fmt::Write>(&self, f: &mut fmt::Formatter<W>) -> fmt::Result {
        match self {
            Failure::NoFile => write!(f, "no file is given\n{USAGE}"),
            Failure::UnknownOption(word) => write!(f, "unknown option {word}\n{USAGE}"),
            Failure::SecondFile(word) => write!(f, "a second file {word}\n{USAGE}"),
            Failure::NoMemory => write!(f, "no memory for the arguments"),
            Failure::Unreadable(file, error) => write!(f, "cannot read {file}: {error}"),
            Failure::Unwritable(error) => write!(f, "cannot write: {error}"),
            Failure::Damaged(damage) => write!(f, "{damage}"),
        }
    }
}

impl From<io::Error> for Failure {
    fn from(error: io::Error) -> Failure {
        Failure::Unwritable(error)
    }
}
