// A step of all tickers.
ghost use Rattle.std.specs.Prelude.{◌≡◌};
ghost use Rattle.strips.specs.Fibre.{numbers};
ghost use Rattle.card_model.specs.Clock.{watches_after, pulses_with};
ghost use Rattle.card.specs.Abstraction.{watches_in};

use settings::CardSettings;
use strips::Sample;
use terms::FIBRES;
use ticker::Ticker;
use ticker::level::level;

// Each ticker takes the sample of its fibre. Which fibres pulse?
// All by one index: a zip tells the proof nothing of what is written through its pairs.
pub(crate) fn tick(
    settings: &CardSettings,
    tickers: &mut [Ticker; 12],
    samples: &[Sample; 12],
) -> [bool; 12]
    ensures watches { watches_in tickers.new
        ≡ watches_after settings.now (watches_in tickers.old) (numbers samples.now) }
    ensures pulses { result
        ≡ pulses_with settings.now (watches_in tickers.old) (numbers samples.now) }
{
    let mut pulses = [false; 12];
    for (f, ticker) in tickers.iter_mut().enumerate() {
        let fibre = &settings.fibres[f];
        let level = level(samples[f].value(), fibre.threshold);
        pulses[f] = ticker.step(fibre.enable, level);
    }
    pulses
}
