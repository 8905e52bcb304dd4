// The records of a fibre.
use crate::block::Block;
use hex_text::Hex;
use layout::Kind;
use settings::Mode;
use std::io;
use std::io::Write;
use strips::write_fibre;

// The length of the longest record.
const LONGEST: usize = 515;

// Prints the record in each mode, a line for each.
pub(crate) fn print_records<O: Write>(out: &mut O, number: u64, block: &Block) -> io::Result<()> {
    for mode in [Mode::ZeroSuppression, Mode::ProcessedRaw, Mode::VirginRaw] {
        let code = u8::from(kind_in(mode));
        write!(out, "block {number} {code:02X} ")?;
        print_record(out, block, mode)?;
    }
    Ok(())
}

// The kind of the records of a mode: no From, since both types are other crates'.
fn kind_in(mode: Mode) -> Kind {
    match mode {
        Mode::ZeroSuppression => Kind::ZeroSuppressed,
        Mode::ProcessedRaw => Kind::ProcessedRaw,
        Mode::VirginRaw => Kind::VirginRaw,
    }
}

// Prints the bytes of the record, or the refusal.
fn print_record<O: Write>(out: &mut O, block: &Block, mode: Mode) -> io::Result<()> {
    // An array and a length: the libraries have no heap, so write_fibre writes into a lent buffer.
    let mut record = [0; LONGEST];
    let written = write_fibre(
        &block.rule,
        block.fibre,
        &block.settings,
        mode,
        &block.samples,
        &mut record,
    );
    match written {
        Ok(length) => {
            let bytes = Hex(&record[..length]);
            writeln!(out, "{bytes}")
        }
        Err(refusal) => {
            let number = refusal.number();
            writeln!(out, "refused, {number}")
        }
    }
}
