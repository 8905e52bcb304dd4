// Finding the clusters of a fibre.
ghost use Rattle.std.specs.Prelude.{◌≡◌, ℕ, ◌+◌, ◌≤◌, true, List, [], ◌∷◌, ◌++◌, length};
ghost use Rattle.layout.specs.Places.{spaced};
ghost use Rattle.layout.specs.Contents.{listed};
ghost use Rattle.clusters.specs.Patterns.{nothing};
ghost use Rattle.clusters.specs.Clusters.{ended, chip_runs, cluster_runs};

use crate::reached::{NOTHING, Reached};
use crate::window::belongs;
use layout::{Run, Runs};
use terms::{CHIP_STRIPS, STRIPS};

// A chip's strips, and two beyond each of its ends.
const PADDED: usize = CHIP_STRIPS + 4;

// The clusters of a fibre, of the left chip and then of the right one, by what each strip reaches.
pub fn find_clusters(reached: &[Reached; STRIPS]) -> Runs
    ensures { listed result ≡ cluster_runs reached.now }
{
    let mut runs = Runs::new();
    find_on_chip(&reached[..CHIP_STRIPS], 0, &mut runs);
    find_on_chip(&reached[CHIP_STRIPS..], CHIP_STRIPS, &mut runs);
    runs
}

// Puts the clusters of a chip behind those found before; its first strip has an address.
fn find_on_chip(chip: &[Reached], first: usize, runs: &mut Runs)
    requires chip { length chip.now ≡ 128 }
    requires on_fibre { first + 128 ≤ 256 }
    requires in_place { spaced (listed runs.old ++ chip_runs first chip.now) ≡ true }
    ensures { listed runs.new ≡ listed runs.old ++ chip_runs first chip.now }
{
    let padded = padded(chip);
    let mut strips = 0;
    for (n, window) in padded.array_windows::<5>().enumerate() {
        if belongs(window) {
            strips += 1;
        } else {
            end_run(runs, first + n, strips);
            strips = 0;
        }
    }
    end_run(runs, first + CHIP_STRIPS, strips);
}

// The strips of a chip between two on either side that reach nothing.
fn padded(chip: &[Reached]) -> [Reached; PADDED]
    requires { length chip.now ≡ 128 }
    ensures { result ≡ nothing ∷ nothing ∷ chip.now ++ nothing ∷ nothing ∷ [] }
{
    let mut padded = [NOTHING; PADDED];
    padded[2..2 + CHIP_STRIPS].copy_from_slice(chip);
    padded
}

// Puts a run of so many strips, if it has any, behind the others: it ends before a strip.
fn end_run(runs: &mut Runs, end: usize, strips: usize)
    requires of_chip { strips ≤ 128 }
    requires from_start { strips ≤ end }
    requires on_fibre { end ≤ 256 }
    requires in_place { spaced (listed runs.old ++ ended end strips []) ≡ true }
    ensures { listed runs.new ≡ listed runs.old ++ ended end strips [] }
{
    if strips == 0 {
        return;
    }
    let run = Run {
        address: (end - strips) as u8,
        strips: strips as u8,
    };
    runs.push(run).unwrap();
}
