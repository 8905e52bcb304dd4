// The twelve samples of a Clock.
ghost use Rattle.std.specs.Prelude.{◌≡◌, IfOk, IfErr};
ghost use Rattle.card.specs.Samples.{IsReadAs, IsTooLarge};

use strips::Sample;
use terms::{FIBRES, Refusal};

// The least sample.
pub(crate) fn zero() -> Sample {
    Sample::new(0).unwrap()
}

// Are all up to 1023? 7, with the lowest fibre whose sample is not.
// A loop: of try_from_fn's Err a proof does not know that its fibre is the lowest.
pub(crate) fn read_samples(samples: &[u16; 12]) -> Result<[Sample; 12], Refusal>
    ensures read { IfOk result (IsReadAs samples.now) }
    ensures large { IfErr result (IsTooLarge samples.now) }
{
    let mut read = [zero(); FIBRES];
    for (f, sample) in samples.iter().enumerate() {
        match Sample::new(*sample) {
            Some(sample) => read[f] = sample,
            None => return Err(Refusal::SampleTooLarge(f)),
        }
    }
    Ok(read)
}
