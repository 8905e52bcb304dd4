// The common mode of a chip, estimated from its strips that count.
ghost use Rattle.std.specs.Prelude.{◌≡◌, ℕ, ◌≤◌};
ghost use Rattle.terms.specs.declared.pair.Side.TheVariants.{Left, Right};
ghost use Rattle.strips.specs.Fibre.{counted_values, mode_of_flats};

use crate::chip::first_strip;
use crate::flat::FlatValues;
use arrayvec::ArrayVec;
use rules::Rule;
use settings::FibreSettings;
use terms::{CHIP_STRIPS, Fibre, Pair, Side};

// The flat values of a chip's strips that count, in strip order.
fn counted_values(
    settings: &FibreSettings,
    side: Side,
    flats: &FlatValues,
) -> ArrayVec<u16, CHIP_STRIPS>
    ensures { result.items ≡ counted_values settings.now side flats.now.values }
{
    if !settings.enable.has(side) {
        return ArrayVec::new();
    }
    let first = first_strip(side);
    let mut row = [0; CHIP_STRIPS];
    let mut count = 0;
    // With no branch on the valid flag, which follows no pattern: each value is written behind those that counted
    // before, and the next one goes over it if its strip does not count.
    for strip in first..first + CHIP_STRIPS {
        row[count] = flats.values[strip];
        count += settings.strips[strip].valid as usize;
    }
    let mut values = ArrayVec::from(row);
    values.truncate(count);
    values
}

// The common mode of a chip out of the flat values of a fibre's strips; 0 where no strip counts.
fn common_mode<R: Rule>(
    rule: &R,
    fibre: Fibre,
    side: Side,
    settings: &FibreSettings,
    flats: &FlatValues,
) -> u16
    ensures value { result ≡ mode_of_flats (R.Rule.meaning rule.now) fibre.index settings.now flats.now.values side }
    ensures fits { result ≤ 1023 }
{
    let values = counted_values(settings, side, flats);
    if values.is_empty() {
        return 0;
    }
    let chip = fibre.chip(side);
    let rank = *settings.ranks.of(side);
    rule.estimate(chip, rank, values.as_slice()).unwrap()
}

// The common modes of both chips of a fibre.
pub(crate) fn common_modes<R: Rule>(
    rule: &R,
    fibre: Fibre,
    settings: &FibreSettings,
    flats: &FlatValues,
) -> Pair<u16>
    ensures left { result.left ≡ mode_of_flats (R.Rule.meaning rule.now) fibre.index settings.now flats.now.values Left }
    ensures right { result.right ≡ mode_of_flats (R.Rule.meaning rule.now) fibre.index settings.now flats.now.values Right }
    ensures left_fits { result.left ≤ 1023 }
    ensures right_fits { result.right ≤ 1023 }
{
    Pair {
        left: common_mode(rule, fibre, Side::Left, settings, flats),
        right: common_mode(rule, fibre, Side::Right, settings, flats),
    }
}
