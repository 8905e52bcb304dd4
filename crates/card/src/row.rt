// The captured samples of one fibre, in place order.
ghost use Rattle.std.specs.Prelude.{◌≡◌, ◌<◌, length, slice_set};

use strips::Sample;
use terms::STRIPS;

#[derive(Clone, Copy)]
pub(crate) struct Row {
    pub(crate) samples: [Sample; STRIPS],
    ghost full: { length samples ≡ 256 },
}

impl Row {
    // Every sample the same.
    pub(crate) fn of(sample: Sample) -> Row {
        Row {
            samples: [sample; STRIPS],
        }
    }

    pub(crate) fn set(&mut self, place: usize, sample: Sample)
        requires { place < 256 }
        ensures { self.new.samples ≡ slice_set self.old.samples place sample }
    {
        self.samples[place] = sample;
    }
}
