// What each record of an event holds.
use layout::Kind;
use reader::{Cluster, Event, Record, Words};
use std::io;
use std::io::Write;

// The words of a raw record are printed in rows.
const ROWS: usize = 16;

const WORDS_IN_ROW: usize = 16;

pub(crate) fn print_contents<O: Write>(out: &mut O, event: &Event<'_>) -> io::Result<()> {
    for (fibre, record) in event.records().enumerate() {
        write!(out, "fibre {fibre}: ")?;
        print_record(out, &record)?;
    }
    Ok(())
}

fn print_record<O: Write>(out: &mut O, record: &Record<'_>) -> io::Result<()> {
    match record.kind() {
        Kind::ZeroSuppressed => write!(out, "zero-suppressed")?,
        Kind::ProcessedRaw => writeln!(out, "processed raw")?,
        Kind::VirginRaw => writeln!(out, "virgin raw")?,
    }
    if let Some(modes) = record.common_modes() {
        let left = modes.left;
        let right = modes.right;
        writeln!(out, ", common modes {left} {right}")?;
    }
    if let Some(clusters) = record.clusters() {
        for cluster in clusters {
            print_cluster(out, cluster)?;
        }
    }
    if let Some(words) = record.words() {
        print_words(out, words)?;
    }
    Ok(())
}

fn print_cluster<O: Write>(out: &mut O, cluster: Cluster<'_>) -> io::Result<()> {
    let first = usize::from(cluster.address);
    let last = first.saturating_add(cluster.values.len()).saturating_sub(1);
    write!(out, "  strips {first}..{last}:")?;
    for value in cluster.values {
        write!(out, " {value}")?;
    }
    writeln!(out, "")
}

fn print_words<O: Write>(out: &mut O, mut words: Words<'_>) -> io::Result<()> {
    // By number: a row begins with the index of its first word.
    for row in 0..ROWS {
        let first = row * WORDS_IN_ROW;
        write!(out, "  {first:>3}:")?;
        for word in words.by_ref().take(WORDS_IN_ROW) {
            write!(out, " {word:>4}")?;
        }
        writeln!(out, "")?;
    }
    Ok(())
}
