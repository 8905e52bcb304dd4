// Gathering runs, and reading them.
ghost use Rattle.std.specs.Prelude.{◌≡◌, ℕ, List, [], ◌∷◌, ◌++◌, length};
ghost use Rattle.layout.specs.Places.{spaced};
ghost use Rattle.layout.specs.Contents.{listed, Pushed};

use super::Runs;
use crate::run::Run;
use arrayvec::ArrayVec;

impl Runs {
    // No runs yet.
    pub fn new() -> Runs
        ensures { listed result ≡ [] }
    {
        Runs {
            list: ArrayVec::new(),
        }
    }

    // One more run behind the others; handed back where it is out of place.
    pub fn push(&mut self, run: Run) -> Result<(), Run>
        ensures { Pushed self.old self.new run result }
    {
        if !self.has_room_for(run) {
            return Err(run);
        }
        self.list.push(run);
        Ok(())
    }

    // Whether a run may follow the others.
    fn has_room_for(&self, run: Run) -> bool
        ensures { result ≡ spaced (listed self.now ++ run ∷ []) }
    {
        run.lies_in_chip()
            && match self.as_slice().last() {
                Some(last) => run.lies_behind(*last),
                None => true,
            }
    }

    // How many runs there are.
    pub fn len(&self) -> usize
        ensures { result ≡ length (listed self.now) }
    {
        self.list.len()
    }

    // The runs, in strip order.
    pub fn as_slice(&self) -> &[Run]
        ensures { result.now ≡ listed self.now }
    {
        self.list.as_slice()
    }
}
