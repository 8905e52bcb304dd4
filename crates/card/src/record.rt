// The record of one fibre in a completed event.
ghost use Rattle.std.specs.Prelude.{◌≡◌, ◌<◌, length};
ghost use Rattle.settings.specs.Settings.{of_fibre};
ghost use Rattle.strips.specs.Fibre.{numbers, fibre_record};

use crate::row::Row;
use rules::Rule;
use settings::CardSettings;
use std::marker::Model;
use strips::write_fibre;
use terms::Fibre;

// The longest record, in bytes.
const LONGEST: usize = 515;

// Its bytes stand at the front of a buffer: a card has no heap for a list that grows.
#[derive(Drop)]
pub(crate) struct Record {
    buffer: [u8; LONGEST],
    length: u16,
}

impl Model for Record {
    ghost use Rattle.std.specs.Prelude.{ℕ, ◌≤◌, List, take};

    ghost Value = { List ℕ };

    ghost view = { λ r. take r.length r.buffer };

    ghost invariant = { λ r. r.length ≤ 515 };
}

impl Record {
    // A record that is not formed yet.
    pub(crate) fn new() -> Record {
        Record {
            buffer: [0; LONGEST],
            length: 0,
        }
    }

    // Becomes the record of a fibre, by the number that the loop over all twelve has.
    pub(crate) fn form<R: Rule>(&mut self, rule: &R, settings: &CardSettings, f: usize, row: &Row)
        requires { f < 12 }
        ensures { self.new
            ≡ fibre_record (R.meaning rule.now) f (of_fibre settings.now f) settings.now.mode
            (numbers row.now.samples) }
    {
        let length = write_fibre(
            rule,
            Fibre::new(f).unwrap(),
            &settings.fibres[f],
            settings.mode,
            &row.samples,
            &mut self.buffer,
        )
        .unwrap();
        self.length = length as u16;
    }

    pub(crate) fn len(&self) -> u16
        ensures { result ≡ length self.now }
    {
        self.length
    }

    pub(crate) fn as_slice(&self) -> &[u8]
        ensures { result.now ≡ self.now }
    {
        &self.buffer[0..usize::from(self.length)]
    }
}
