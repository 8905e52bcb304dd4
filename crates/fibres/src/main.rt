// Forms the records of fibres: reads the settings and samples of each from a block of lines, and prints its
// record in each mode.
#![tactic(auto)]

mod block;
mod misread;
mod numbers;
mod records;

use block::Block;
use records::print_records;
use std::io;
use std::io::{BufWriter, Write};

// An empty line ends a block, so the number of a block is counted by hand: it is no index of the lines.
fn main(rt: HostRuntime) -> io::Result<()> {
    let text = io::read_to_string(rt.alloc(), rt.stdin())?;
    let mut out = BufWriter::new(rt.alloc(), rt.stdout())?;
    let mut blocks = 0u64;
    let mut block = Block::fresh();
    for line in text.as_str().lines() {
        if line.is_empty() {
            print_records(&mut out, blocks, &block)?;
            blocks = blocks.saturating_add(1);
            block = Block::fresh();
        } else if block.take(line).is_err() {
            writeln!(out, "block {blocks}: not understood: {line}")?;
        }
    }
    out.flush()
}
