// The seven patterns that make a strip belong to a cluster.
ghost use Rattle.std.specs.Prelude.{◌≡◌};
ghost use Rattle.clusters.specs.Patterns.{fits};

use crate::reached::Reached;

// What a pattern asks of one strip.
#[derive(Clone, Copy)]
pub enum Mark {
    // Nothing.
    Any,
    // That it reaches thresh1.
    Thresh1,
    // That it reaches thresh2.
    Thresh2,
}

// The marks as the table writes them.
const X: Mark = Mark::Any;

const T1: Mark = Mark::Thresh1;

const T2: Mark = Mark::Thresh2;

// A row for each pattern: what it asks of strips n-2 to n+2 so that strip n belongs.
pub const PATTERNS: [[Mark; 5]; 7] = [
    [X, X, T2, X, X],
    [X, T1, T1, X, X],
    [X, X, T1, T1, X],
    [X, T2, X, T2, X],
    [T1, T1, X, T2, X],
    [X, T2, X, T1, T1],
    [T1, T1, X, T1, T1],
];

impl Mark {
    // Whether a strip is as the mark asks.
    pub fn fits(self, strip: Reached) -> bool
        ensures { result ≡ fits self strip }
    {
        match self {
            Mark::Any => true,
            Mark::Thresh1 => strip.thresh1,
            Mark::Thresh2 => strip.thresh2,
        }
    }
}
