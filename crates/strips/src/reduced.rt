// Reduced values, and the thresholds that they reach.
ghost use Rattle.std.specs.Prelude.{◌≡◌};
ghost use Rattle.strips.specs.Values.{reduced, reaches};
ghost use Rattle.strips.specs.Fibre.{reduced_values, all_reached};

use crate::chip::{counts, side_of};
use crate::flat::FlatValues;
use clusters::Reached;
use clusters::reached::NOTHING;
use settings::FibreSettings;
use terms::{LARGEST, Pair, STRIPS};

// What a strip off scale is reduced to, and what no threshold and no other strip reaches.
const OFF_SCALE: u8 = 255;

// The reduced values of a fibre's strips, and the thresholds that they reach.
#[derive(Clone, Copy)]
pub(crate) struct Reduced {
    pub(crate) values: [u8; STRIPS],
    pub(crate) reached: [Reached; STRIPS],
}

// The reduced value of a strip: 0 where it does not count, 255 off scale, else what lies above the
// common mode, at most 254.
fn reduced_value(counts: bool, mode: u16, flat: u16) -> u8
    ensures { result ≡ reduced counts mode flat }
{
    if !counts {
        0
    } else if flat == LARGEST {
        OFF_SCALE
    } else {
        flat.saturating_sub(mode).min(254) as u8
    }
}

// Whether a strip reaches a threshold.
fn reaches(counts: bool, threshold: u8, value: u8) -> bool
    ensures { result ≡ reaches counts threshold value }
{
    counts && threshold < OFF_SCALE && value >= threshold
}

// The reduced values of a fibre's strips beside its common modes, out of their flat values, and the thresholds
// that they reach. Both rows in one pass: an array::from_fn for each takes a tenth longer for the whole record.
pub(crate) fn reduce(settings: &FibreSettings, modes: Pair<u16>, flats: &FlatValues) -> Reduced
    ensures values { result.values ≡ reduced_values settings.now modes flats.now.values }
    ensures reached { result.reached ≡ all_reached settings.now result.values }
{
    let mut values = [0; STRIPS];
    let mut reached = [NOTHING; STRIPS];
    for (strip, flat) in flats.values.iter().enumerate() {
        let counts = counts(settings, strip);
        let value = reduced_value(counts, *modes.of(side_of(strip)), *flat);
        let own = settings.strips[strip];
        values[strip] = value;
        reached[strip] = Reached {
            thresh1: reaches(counts, own.thresh1, value),
            thresh2: reaches(counts, own.thresh2, value),
        };
    }
    Reduced { values, reached }
}
