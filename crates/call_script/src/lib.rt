// A call script, line by line: the words of a line, the numbers in them, and the command that it asks for.
#![tactic(auto)]

pub mod command;
pub mod limits;
pub mod lines;
pub mod numbers;
pub mod parse;
pub mod words;

pub use command::{CardCall, Command, EventQuestion, Memory};
pub use limits::{UpTo, Values};
pub use lines::{Lines, first_line};
pub use numbers::{read_byte, read_bytes, read_number, read_setting};
pub use parse::{Unread, parse_line};
pub use words::first_word;
