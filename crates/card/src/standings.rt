// How the fibres stand.
ghost use Rattle.std.specs.Prelude.{◌≡◌, ℕ, ◌<◌, true, false, slice_index_or};
ghost use Rattle.card_model.specs.Clock.{standings as standings_of};
ghost use Rattle.card.specs.Abstraction.{watch_in, watches_in, standing_as};

use settings::CardSettings;
use synch::Standing;
use terms::Enable;
use ticker::Ticker;

// How each fibre stands, by the state and the header of its ticker; some fibres are in step.
// A loop: of what array::from_fn makes it stayed open by which tickers its closure made it.
pub(crate) fn standings(
    settings: &CardSettings,
    tickers: &[Ticker; 12],
    in_step: &[bool; 12],
) -> [Standing; 12]
    ensures { result ≡ standings_of settings.now (watches_in tickers.now) in_step.now }
{
    let mut fibres = [standing(settings.fibres[0].enable, &tickers[0], in_step[0]); 12];
    for (f, fibre) in fibres.iter_mut().enumerate() {
        *fibre = standing(settings.fibres[f].enable, &tickers[f], in_step[f]);
    }
    fibres
}

// How one fibre stands.
fn standing(enable: Enable, ticker: &Ticker, in_step: bool) -> Standing
    ensures { result ≡ standing_as enable (watch_in ticker.now) in_step }
{
    Standing {
        enable,
        in_lock: ticker.state().in_lock(),
        in_step,
        header: ticker.header(),
    }
}

// Whether no fibre pulses.
pub(crate) fn none_pulses(pulses: &[bool; 12]) -> bool
    ensures { result ≡ true
        → (f : ℕ) → f < 12 → slice_index_or pulses.now f false ≡ false }
{
    !pulses.iter().any(|pulse| *pulse)
}
