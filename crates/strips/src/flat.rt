// Flat values: samples without their pedestals, in strip order.
ghost use Rattle.std.specs.Prelude.{◌≡◌, ◌≤◌, true};
ghost use Rattle.layout.specs.Limits.{at_most};
ghost use Rattle.strips.specs.Values.{turned, flat};
ghost use Rattle.strips.specs.Fibre.{numbers, flat_values};

use crate::order::strip_of_place;
use crate::sample::Sample;
use settings::FibreSettings;
use terms::{LARGEST, STRIPS};

// The flat values of a fibre's strips, in strip order.
#[derive(Clone, Copy)]
pub(crate) struct FlatValues {
    pub(crate) values: [u16; STRIPS],
    ghost ten_bits: { at_most 1023 values ≡ true },
}

// The flat value of a strip: off scale stays 1023, else the pedestal is taken off, down to 0.
fn flat_value(sample: Sample, complement: bool, pedestal: u16) -> u16
    ensures { result ≡ flat pedestal (turned complement sample.value) }
{
    let level = if complement {
        LARGEST - sample.value()
    } else {
        sample.value()
    };
    if level == LARGEST {
        LARGEST
    } else {
        level.saturating_sub(pedestal)
    }
}

// The flat values of a fibre's strips, out of its samples in place order: each goes to its strip, in an order
// that no iterator has.
pub(crate) fn flat_values(settings: &FibreSettings, samples: &[Sample; STRIPS]) -> FlatValues
    ensures { result.values ≡ flat_values settings.now (numbers samples.now) }
{
    let mut flats = [0; STRIPS];
    for (place, sample) in samples.iter().enumerate() {
        let strip = usize::from(strip_of_place(place as u8));
        flats[strip] = flat_value(
            *sample,
            settings.complement,
            settings.strips[strip].pedestal,
        );
    }
    FlatValues { values: flats }
}
