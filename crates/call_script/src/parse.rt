// Reads a line of a call script.
ghost use Rattle.std.specs.Prelude.{◌≤◌, length, IfOk, IfSome, OnErr};
ghost use Rattle.std.specs.Iterator.{at_most};
ghost use Rattle.call_script.specs.Commands.{KeepsLimits, Asks, Speaks};

use crate::command::{
    CardCall, Command, EventQuestion, LONGEST_BUFFER, MOST_CLOCKS, MOST_MEMORY, Memory,
};
use crate::limits::{UpTo, Values};
use crate::numbers::{read_byte, read_bytes, read_number, read_setting};
use crate::words::first_word;
use chosen::ChosenRule;
use rules::Fixed;
use std::alloc::{AllocError, AllocFailed, Global};
use std::str;
use stores::StoreCall;

// The largest number.
const LARGEST: u32 = 4_294_967_295;
// The largest sample, value or number of the fixed rule.
const LARGEST_SHORT: u32 = 65_535;
// The largest rank setting.
const LARGEST_SETTING: u32 = 255;
// The most values of an estimate.
const MOST_VALUES: usize = 1000;
// The most digits of an event.
const MOST_DIGITS: usize = 100_000;
// The most letters of a name.
const LONGEST_NAME: usize = 8;

// Why a line could not be read.
#[derive(Clone, Copy)]
pub enum Unread {
    // It is no line of a call script.
    BadLine,
    // There is no memory for its values.
    NoMemory,
}

impl From<AllocError> for Unread {
    fn from(_error: AllocError) -> Unread {
        Unread::NoMemory
    }
}

impl<T: Drop> From<AllocFailed<T>> for Unread {
    fn from(_refused: AllocFailed<T>) -> Unread {
        Unread::NoMemory
    }
}

// A word as the text of a name. One that is longer than every name is not read: it may be very long.
fn name_in(word: &[u8]) -> Option<&str> {
    if word.len() > LONGEST_NAME {
        return None;
    }
    str::from_utf8(word).ok()
}

// A number of sixteen bits.
fn read_short(word: &[u8]) -> Option<u16> {
    // By `as`, here and below: it is proved to lose no bit, so TryFrom's error could not come.
    Some(read_number(word, LARGEST_SHORT)? as u16)
}

// The words of a line that are still to be read, and the heap for what they say.
#[derive(Drop)]
struct Words<'a> {
    heap: Global,
    left: &'a [u8],
}

impl<'a> Iterator for Words<'a> {
    type Item = &'a [u8];

    ghost remaining = { λ words. at_most (length words.left.now) };

    fn next(&mut self) -> Option<&'a [u8]> {
        let (word, rest) = first_word(self.left)?;
        self.left = rest;
        Some(word)
    }
}

impl<'a> Words<'a> {
    fn word(&mut self) -> Result<&'a [u8], Unread> {
        self.next().ok_or(Unread::BadLine)
    }

    // A word that is a name of something.
    fn name(&mut self) -> Result<&'a str, Unread> {
        name_in(self.word()?).ok_or(Unread::BadLine)
    }

    // No word is left.
    fn end(&mut self) -> Result<(), Unread> {
        match self.next() {
            Some(_) => Err(Unread::BadLine),
            None => Ok(()),
        }
    }

    // A number up to a limit.
    fn number(&mut self, limit: u32) -> Result<u32, Unread>
        ensures { IfOk result (λ n. n ≤ limit) }
    {
        read_number(self.word()?, limit).ok_or(Unread::BadLine)
    }

    fn up_to<const MOST: u32>(&mut self) -> Result<UpTo<MOST>, Unread> {
        let number = self.number(MOST)?;
        Ok(UpTo { number })
    }

    // A number as an index.
    fn index(&mut self) -> Result<usize, Unread> {
        Ok(self.number(LARGEST)? as usize)
    }

    fn setting(&mut self) -> Result<u32, Unread> {
        read_setting(self.word()?).ok_or(Unread::BadLine)
    }

    fn byte(&mut self) -> Result<u8, Unread> {
        read_byte(self.word()?).ok_or(Unread::BadLine)
    }

    // Twelve or twenty-four numbers of sixteen bits.
    fn shorts<const N: usize>(&mut self) -> Result<[u16; N], Unread> {
        let mut numbers = [0; N];
        for number in numbers.iter_mut() {
            *number = read_short(self.word()?).ok_or(Unread::BadLine)?;
        }
        Ok(numbers)
    }

    fn memory(&mut self) -> Result<Memory, Unread> {
        let kind = self.name()?;
        let size = self.up_to::<MOST_MEMORY>()?;
        match kind {
            "bytes" => Ok(Memory::Bytes(size)),
            "words" => Ok(Memory::Words(size)),
            _ => Err(Unread::BadLine),
        }
    }

    fn rule(&mut self) -> Result<ChosenRule, Unread> {
        match self.name()? {
            "rank" => Ok(ChosenRule::Rank),
            "mean" => Ok(ChosenRule::Mean),
            "fixed" => {
                let numbers = self.shorts()?;
                Ok(ChosenRule::Fixed(Fixed { numbers }))
            }
            _ => Err(Unread::BadLine),
        }
    }

    // Values up to the end of the line, or as many as an estimate takes.
    fn values(&mut self) -> Result<Values, Unread> {
        let mut list = Vec::new(self.heap);
        for word in self.take(MOST_VALUES) {
            list.push(read_short(word).ok_or(Unread::BadLine)?)?;
        }
        Ok(Values { list })
    }

    // A new card, with a store and a rule of its own.
    fn card(&mut self) -> Result<Command, Unread> {
        let memory = self.memory()?;
        Ok(Command::Card(memory, self.rule()?))
    }

    // An estimate, with the values up to the end of the line.
    fn estimate(&mut self) -> Result<Command, Unread> {
        let chip = self.index()?;
        let setting = self.number(LARGEST_SETTING)? as u8;
        let values = self.values()?;
        Ok(Command::Estimate {
            chip,
            setting,
            values,
        })
    }

    // The bytes of an event, or the word that stands for those that were fetched last.
    fn unpack(&mut self) -> Result<Command, Unread> {
        let word = self.word()?;
        match name_in(word) {
            Some("last") => Ok(Command::UnpackLast),
            Some("-") => Ok(Command::Unpack(Vec::new(self.heap))),
            _ => {
                if word.len() > MOST_DIGITS {
                    return Err(Unread::BadLine);
                }
                let bytes = read_bytes(self.heap, word)?.ok_or(Unread::BadLine)?;
                Ok(Command::Unpack(bytes))
            }
        }
    }

    // The cluster of an index in the record of a fibre.
    fn cluster(&mut self) -> Result<EventQuestion, Unread> {
        let fibre = self.index()?;
        let index = self.index()?;
        Ok(EventQuestion::Cluster { fibre, index })
    }

    // The command of a name, with the words behind it that it takes.
    fn command(&mut self, name: &str) -> Result<Command, Unread> {
        match name {
            "card" => self.card(),
            "swap" => Ok(Command::Swap),
            "store" => Ok(Command::Store(self.memory()?)),
            "rule" => Ok(Command::Rule(self.rule()?)),
            "estimate" => self.estimate(),
            "unpack" => self.unpack(),
            "record" => Ok(Command::OfEvent(EventQuestion::Record(self.index()?))),
            "cluster" => Ok(Command::OfEvent(self.cluster()?)),
            _ => self.call(name),
        }
    }

    // A call of the store or of the card.
    fn call(&mut self, name: &str) -> Result<Command, Unread> {
        match name {
            "put" => Ok(Command::OfStore(self.put()?)),
            "take" => Ok(Command::OfStore(StoreCall::Take(self.index()?))),
            "count" => Ok(Command::OfStore(StoreCall::Level(self.index()?))),
            "capacity" => Ok(Command::OfStore(StoreCall::Capacity)),
            "clear" => Ok(Command::OfStore(StoreCall::Clear)),
            _ => Ok(Command::OfCard(self.card_call(name)?)),
        }
    }

    // A byte put on a fibre.
    fn put(&mut self) -> Result<StoreCall, Unread> {
        let fibre = self.index()?;
        let byte = self.byte()?;
        Ok(StoreCall::Put(fibre, byte))
    }

    // A call of the card.
    fn card_call(&mut self, name: &str) -> Result<CardCall, Unread> {
        match name {
            "load" => Ok(CardCall::Load(self.setting()?)),
            "clock" => self.clock(UpTo { number: 1 }),
            "clocks" => {
                let times = self.up_to::<MOST_CLOCKS>()?;
                self.clock(times)
            }
            "ask" => Ok(CardCall::Ask),
            "fetch" => Ok(CardCall::Fetch(self.up_to::<LONGEST_BUFFER>()?)),
            "giveback" => Ok(CardCall::GiveBack),
            "level" => Ok(CardCall::Level(self.index()?)),
            "reset" => Ok(CardCall::Reset),
            _ => Err(Unread::BadLine),
        }
    }

    // The same Clock so many times.
    fn clock(&mut self, times: UpTo<MOST_CLOCKS>) -> Result<CardCall, Unread> {
        let samples = self.shorts()?;
        Ok(CardCall::Clock { times, samples })
    }
}

// The command of a line whose first word is `name`, and no word more than it takes.
fn whole_command(heap: Global, name: &[u8], rest: &[u8]) -> Result<Command, Unread> {
    let name = name_in(name).ok_or(Unread::BadLine)?;
    let mut words = Words { heap, left: rest };
    let command = words.command(name)?;
    words.end()?;
    Ok(command)
}

// What a line asks for; nothing where it has no word or is a comment.
#[tactic(auto, using(crate::proofs::Kept::keeps_limits))]
pub fn parse_line(heap: Global, line: &[u8]) -> Result<Option<Command>, Unread>
    ensures asked { IfOk result (Asks line.now) }
    ensures unread { OnErr result (Speaks line.now) }
    ensures limits { IfOk result (λ o. IfSome o KeepsLimits) }
{
    let Some((name, rest)) = first_word(line) else {
        return Ok(None);
    };
    if name[0] == b'#' {
        return Ok(None);
    }
    Ok(Some(whole_command(heap, name, rest)?))
}
