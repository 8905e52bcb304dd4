// What a script has made so far, and the answers to its lines.
use crate::answers::Answers;
use crate::cards::Cards;
use crate::estimates::print_estimate;
use crate::events::{answer_question, no_event, print_event, print_fault};
use crate::failure::Failure;
use crate::held_store::HeldStore;
use call_script::{Command, Lines, Memory, Unread, parse_line};
use chosen::{ChosenRule, LentStore};
use reader::read_event;
use std::alloc::Global;
use std::io::Write;

#[derive(Drop)]
pub struct Session<B: LentStore, W: LentStore> {
    heap: Global,
    cards: Cards,
    store: Option<HeldStore<B, W>>,
    rule: ChosenRule,
    // The bytes of the event that was accepted last.
    event: Option<Vec<u8>>,
}

impl<B: LentStore + Drop, W: LentStore + Drop> Session<B, W> {
    fn new(heap: Global) -> Session<B, W> {
        Session {
            heap,
            cards: Cards::new(),
            store: None,
            rule: ChosenRule::Rank,
            event: None,
        }
    }

    // Makes a new store.
    fn renew_store<O: Write>(
        &mut self,
        answers: &mut Answers<'_, O>,
        memory: Memory,
    ) -> Result<(), Failure> {
        let store = HeldStore::new(self.heap, memory)?;
        let capacity = store.capacity();
        self.store = Some(store);
        answers.print(format_args!("store capacity {capacity}"))
    }

    // Reads bytes as an event, and keeps those of one.
    fn unpack<O: Write>(
        &mut self,
        answers: &mut Answers<'_, O>,
        bytes: Vec<u8>,
    ) -> Result<(), Failure> {
        match read_event(bytes.as_slice()) {
            Ok(event) => print_event(answers, &event)?,
            Err(fault) => return print_fault(answers, fault),
        }
        self.event = Some(bytes);
        Ok(())
    }

    // Carries out what a line asks for, and prints what was answered.
    fn answer<O: Write>(
        &mut self,
        answers: &mut Answers<'_, O>,
        command: Command,
    ) -> Result<(), Failure> {
        match command {
            Command::Card(memory, rule) => self.cards.renew(answers, self.heap, memory, rule),
            Command::Swap => self.cards.swap(answers),
            Command::OfCard(call) => self.cards.answer(answers, call),
            Command::Store(memory) => self.renew_store(answers, memory),
            Command::OfStore(call) => match &mut self.store {
                Some(store) => store.answer(answers, call),
                None => answers.print("no store"),
            },
            Command::Rule(rule) => {
                self.rule = rule;
                answers.print("rule")
            }
            Command::Estimate {
                chip,
                setting,
                values,
            } => print_estimate(answers, &self.rule, chip, setting, values.list.as_slice()),
            Command::Unpack(bytes) => self.unpack(answers, bytes),
            Command::UnpackLast => match self.cards.last_fetched() {
                Some(bytes) => {
                    let bytes = bytes.to_vec(self.heap)?;
                    self.unpack(answers, bytes)
                }
                None => no_event(answers),
            },
            Command::OfEvent(question) => match &self.event {
                Some(bytes) => answer_question(answers, bytes.as_slice(), question),
                None => no_event(answers),
            },
        }
    }
}

// Answers a whole script.
pub(crate) fn answer_script<B: LentStore + Drop, W: LentStore + Drop, O: Write>(
    heap: Global,
    script: &[u8],
    out: &mut O,
) -> Result<(), Failure> {
    let mut session = Session::<B, W>::new(heap);
    for (index, line) in Lines::of(script).enumerate() {
        let mut answers = Answers::new(out, index.saturating_add(1));
        match parse_line(heap, line) {
            Ok(Some(command)) => session.answer(&mut answers, command)?,
            Ok(None) => {}
            Err(Unread::BadLine) => answers.print("bad line")?,
            Err(Unread::NoMemory) => return Err(Failure::NoMemory),
        }
    }
    Ok(())
}
