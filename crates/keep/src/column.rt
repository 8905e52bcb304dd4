// The crew's column: the bytes of each fibre's record.
use reader::Event;
use std::io;
use std::io::Write;

pub(crate) fn print_column<O: Write>(out: &mut O, event: &Event<'_>) -> io::Result<()> {
    writeln!(out, "fibre   bytes")?;
    for (fibre, record) in event.records().enumerate() {
        let bytes = record.size();
        writeln!(out, "{fibre:>5}{bytes:>8}")?;
    }
    Ok(())
}
