// A line that is none of a block.

#[derive(Clone, Copy, Debug, PartialEq, Eq)]
pub struct Misread;
