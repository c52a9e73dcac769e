// A run with a price, on a state by value.
ghost use Rattle.state.specs.Kept.{view};
ghost use Rattle.prices.specs.priced_runs.PricedRun.{priced_run};
ghost use Rattle.prices.specs.priced_runs.InPlace.{GivesPricedRunOn};

use crate::priced_runs;
use crate::priced_runs::PricedStateReport;
use state::State;

/// A run with its price, on a state that is taken and handed back. Refused is what it is in place.
pub fn priced_run(
    image: &[u8],
    state: State,
    prices: &[u16; 32],
    words: &[u16],
    masks: &mut [u32],
    codes: &mut [u8],
) -> PricedStateReport
    ensures { GivesPricedRunOn
        (priced_run image.now (view state) prices.now words.now masks.old codes.old)
        words.now state result.answer result.price result.state masks.new codes.new }
{
    let mut after = state;
    let done = priced_runs::priced_run(image, &mut after, prices, words, masks, codes);
    PricedStateReport {
        answer: done.answer,
        state: after,
        price: done.price,
    }
}
