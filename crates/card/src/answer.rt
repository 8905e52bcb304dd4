// What a call that is carried out is answered.
use crate::clocked::Clocked;

#[derive(Clone, Copy)]
pub enum Answer {
    // A setting word was taken.
    Taken,
    // What a Clock brought.
    Clocked(Clocked),
    // A slip, with the oldest event's length.
    Slip(usize),
    // An event was fetched: where its bytes begin, and how many they are.
    Fetched { at: usize, length: usize },
    GivenBack,
    Level(usize),
    WasReset,
}
