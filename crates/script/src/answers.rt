// The answers to a line of a script.
use crate::failure::Failure;
use std::fmt::Display;
use std::io::Write;
use terms::Refusal;

// Where the answers go, and the number of the line, which each begins with.
#[derive(Drop)]
pub(crate) struct Answers<'a, O: Write> {
    out: &'a mut O,
    line: usize,
}

impl<'a, O: Write> Answers<'a, O> {
    pub(crate) fn new(out: &'a mut O, line: usize) -> Answers<'a, O> {
        Answers { out, line }
    }

    // Prints an answer.
    pub(crate) fn print(&mut self, answer: impl Display + Drop) -> Result<(), Failure> {
        let line = self.line;
        writeln!(self.out, "{line} {answer}")?;
        Ok(())
    }

    // Prints that a question was answered no.
    pub(crate) fn refuse(&mut self, refusal: Refusal) -> Result<(), Failure> {
        let number = refusal.number();
        self.print(format_args!("refused {number}"))
    }
}
