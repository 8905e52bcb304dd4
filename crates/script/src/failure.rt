// What ends the program with status 1, in words.
use std::alloc::{AllocError, AllocFailed};
use std::{fmt, io};

#[derive(Drop)]
pub enum Failure {
    NoMemory,
    // A line makes a card.
    NoCards,
    // The script cannot be read.
    Unreadable(io::Error),
    // The answers cannot be written.
    Unwritable(io::Error),
}

impl fmt::Display for Failure {
    fn fmt<W: fmt::Write>(&self, f: &mut fmt::Formatter<W>) -> fmt::Result {
        match self {
            Failure::NoMemory => write!(f, "no memory"),
            Failure::NoCards => write!(f, "no card can be made yet"),
            Failure::Unreadable(error) => write!(f, "cannot read the script: {error}"),
            Failure::Unwritable(error) => write!(f, "cannot write: {error}"),
        }
    }
}

impl From<io::Error> for Failure {
    fn from(error: io::Error) -> Failure {
        Failure::Unwritable(error)
    }
}

impl From<AllocError> for Failure {
    fn from(_error: AllocError) -> Failure {
        Failure::NoMemory
    }
}

impl<T: Drop> From<AllocFailed<T>> for Failure {
    fn from(_refused: AllocFailed<T>) -> Failure {
        Failure::NoMemory
    }
}
