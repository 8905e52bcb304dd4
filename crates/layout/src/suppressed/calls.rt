// A content that fits.
ghost use Rattle.std.specs.Prelude.{◌≡◌, ℕ, true, false, ◌&&◌, map, MatchOption, nat_le};
ghost use Rattle.layout.specs.Event.{suppressed};
ghost use Rattle.layout.specs.Contents.{listed, cluster_on, suppressed_content};

use super::Suppressed;
use crate::runs::Runs;
use terms::{LARGEST, Pair, STRIPS};

impl Suppressed {
    // The common modes, the reduced values of all strips, and where clusters lie on them; no common mode is above 1023.
    pub fn new(modes: Pair<u16>, values: [u8; STRIPS], runs: Runs) -> Option<Suppressed>
        ensures { MatchOption result ((nat_le modes.left 1023 && nat_le modes.right 1023) ≡ false) (λ s. suppressed_content s ≡ suppressed modes (map (cluster_on values) (listed runs))) }
    {
        if modes.left > LARGEST || modes.right > LARGEST {
            return None;
        }
        Some(Suppressed {
            modes,
            values,
            runs,
        })
    }
}
