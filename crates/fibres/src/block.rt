// What a block of lines says of one fibre.
use crate::misread::Misread;
use crate::numbers::{read_each, read_row};
use chosen::ChosenRule;
use rules::Fixed;
use settings::{FibreSettings, StripSettings};
use strips::Sample;
use terms::{CHIPS, Enable, Fibre, Pair, STRIPS};

#[derive(Clone, Copy)]
pub struct Block {
    pub fibre: Fibre,
    // The rule by which common modes are estimated.
    pub rule: ChosenRule,
    pub settings: FibreSettings,
    pub samples: [Sample; STRIPS],
}

impl Block {
    // What holds before a line says otherwise.
    pub(crate) fn fresh() -> Block {
        Block {
            fibre: Fibre::new(0).unwrap(),
            rule: ChosenRule::Rank,
            settings: FibreSettings::fresh(),
            samples: [Sample::new(0).unwrap(); STRIPS],
        }
    }

    // Takes a line: a name, and what the block says of it.
    pub(crate) fn take(&mut self, line: &str) -> Result<(), Misread> {
        let (name, text) = line.split_once(' ').ok_or(Misread)?;
        match name {
            "fibre" => self.fibre = read_fibre(text)?,
            "rule" => self.rule = read_rule(text)?,
            "samples" => read_samples(text, &mut self.samples)?,
            _ => take_setting(&mut self.settings, name, text)?,
        }
        Ok(())
    }
}

// Takes what is said of the whole fibre or of its chips.
fn take_setting(settings: &mut FibreSettings, name: &str, text: &str) -> Result<(), Misread> {
    match name {
        "enable" => settings.enable = read_enable(text)?,
        "complement" => settings.complement = read_flag(text)?,
        "ranks" => settings.ranks = read_ranks(text)?,
        _ => take_row(settings, name, text)?,
    }
    Ok(())
}

// Takes what is said of each strip.
fn take_row(settings: &mut FibreSettings, name: &str, text: &str) -> Result<(), Misread> {
    match name {
        "valid" => read_flags(text, &mut settings.strips),
        "pedestals" => read_each(
            text,
            &mut settings.strips,
            |strip, number| strip.pedestal = number,
        ),
        "thresh1" => read_each(
            text,
            &mut settings.strips,
            |strip, number| strip.thresh1 = number,
        ),
        "thresh2" => read_each(
            text,
            &mut settings.strips,
            |strip, number| strip.thresh2 = number,
        ),
        _ => Err(Misread),
    }
}

// Functions from here on: FromStr cannot be given here to types of other crates.
fn read_fibre(text: &str) -> Result<Fibre, Misread> {
    let index = text.parse().map_err(|_| Misread)?;
    Fibre::new(index).map_err(|_| Misread)
}

fn read_rule(text: &str) -> Result<ChosenRule, Misread> {
    match text {
        "rank" => Ok(ChosenRule::Rank),
        "mean" => Ok(ChosenRule::Mean),
        _ => {
            let mut numbers = [0; CHIPS];
            read_row(text.strip_prefix("fixed ").ok_or(Misread)?, &mut numbers)?;
            Ok(ChosenRule::Fixed(Fixed { numbers }))
        }
    }
}

// By its text, since a number that is parsed may have a sign or zeros in front.
fn read_enable(text: &str) -> Result<Enable, Misread> {
    match text {
        "0" => Ok(Enable::Neither),
        "1" => Ok(Enable::Right),
        "2" => Ok(Enable::Left),
        "3" => Ok(Enable::Both),
        _ => Err(Misread),
    }
}

fn read_flag(text: &str) -> Result<bool, Misread> {
    match text.as_bytes() {
        [digit] => flag_of(*digit),
        _ => Err(Misread),
    }
}

fn flag_of(digit: u8) -> Result<bool, Misread> {
    match digit {
        b'0' => Ok(false),
        b'1' => Ok(true),
        _ => Err(Misread),
    }
}

fn read_ranks(text: &str) -> Result<Pair<u8>, Misread> {
    let mut ranks = [0; 2];
    read_row(text, &mut ranks)?;
    let [left, right] = ranks;
    Ok(Pair { left, right })
}

// A digit for each strip.
fn read_flags(text: &str, strips: &mut [StripSettings; STRIPS]) -> Result<(), Misread> {
    if text.len() != STRIPS {
        return Err(Misread);
    }
    for (strip, digit) in strips.iter_mut().zip(text.bytes()) {
        strip.valid = flag_of(digit)?;
    }
    Ok(())
}

fn read_samples(text: &str, samples: &mut [Sample; STRIPS]) -> Result<(), Misread> {
    let mut numbers = [0; STRIPS];
    read_row(text, &mut numbers)?;
    for (sample, number) in samples.iter_mut().zip(numbers) {
        *sample = Sample::new(number).ok_or(Misread)?;
    }
    Ok(())
}
