// The reader by itself: what an event holds.
use crate::answers::Answers;
use crate::failure::Failure;
use call_script::EventQuestion;
use faults::EventFault;
use hex_text::Hex;
use reader::{Cluster, Event, Record, read_event};
use std::fmt;
use std::io::Write;
use terms::Refusal;

// What stands behind the packet code of a record: its common modes, or the words of a raw record.
#[derive(Clone, Copy)]
struct Content<'a, 'b>(&'a Record<'b>);

impl fmt::Display for Content<'_, '_> {
    fn fmt<W: fmt::Write>(&self, f: &mut fmt::Formatter<W>) -> fmt::Result {
        if let Some(modes) = self.0.common_modes() {
            write!(f, " {} {}", modes.left, modes.right)?;
        }
        if let Some(words) = self.0.words() {
            for word in words {
                write!(f, " {word}")?;
            }
        }
        Ok(())
    }
}

pub(crate) fn print_fault<O: Write>(
    answers: &mut Answers<'_, O>,
    fault: EventFault,
) -> Result<(), Failure> {
    let number = fault.number();
    let layer = fault.layer();
    let offset = fault.offset();
    answers.print(format_args!("fault {number} {layer} {offset}"))
}

pub(crate) fn print_event<O: Write>(
    answers: &mut Answers<'_, O>,
    event: &Event<'_>,
) -> Result<(), Failure> {
    let size = event.size();
    answers.print(format_args!("event {size}"))?;
    for (fibre, record) in event.records().enumerate() {
        print_record(answers, fibre, &record)?;
    }
    Ok(())
}

// A line for the record, and one for each of its clusters.
fn print_record<O: Write>(
    answers: &mut Answers<'_, O>,
    fibre: usize,
    record: &Record<'_>,
) -> Result<(), Failure> {
    let code = u8::from(record.kind());
    let content = Content(record);
    answers.print(format_args!("fibre {fibre} {code:02X}{content}"))?;
    if let Some(clusters) = record.clusters() {
        for cluster in clusters {
            print_cluster(answers, cluster)?;
        }
    }
    Ok(())
}

fn print_cluster<O: Write>(
    answers: &mut Answers<'_, O>,
    cluster: Cluster<'_>,
) -> Result<(), Failure> {
    let address = cluster.address;
    let strips = cluster.values.len();
    let values = Hex(cluster.values);
    answers.print(format_args!("cluster {address} {strips} {values}"))
}

// The cluster of an index in the record of a fibre.
fn cluster_of<'a>(event: &Event<'a>, fibre: usize, index: usize) -> Result<Cluster<'a>, Refusal> {
    event.record(fibre)?.cluster(index)
}

// Answers a question on the bytes of an event.
pub(crate) fn answer_question<O: Write>(
    answers: &mut Answers<'_, O>,
    bytes: &[u8],
    question: EventQuestion,
) -> Result<(), Failure> {
    let Ok(event) = read_event(bytes) else {
        return no_event(answers);
    };
    match question {
        EventQuestion::Record(fibre) => match event.record(fibre) {
            Ok(record) => {
                let code = u8::from(record.kind());
                let size = record.size();
                answers.print(format_args!("record {code:02X} {size}"))
            }
            Err(refusal) => answers.refuse(refusal),
        },
        EventQuestion::Cluster { fibre, index } => match cluster_of(&event, fibre, index) {
            Ok(cluster) => print_cluster(answers, cluster),
            Err(refusal) => answers.refuse(refusal),
        },
    }
}

pub(crate) fn no_event<O: Write>(answers: &mut Answers<'_, O>) -> Result<(), Failure> {
    answers.print("no event")
}
