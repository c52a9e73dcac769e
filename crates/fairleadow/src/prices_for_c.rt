// The call from C that runs and tells the price.
ghost use Rattle.std.specs.Prelude.{◌≡◌};
ghost use Rattle.prices.specs.priced_runs.InPlace.{state_priced};
ghost use Rattle.fairleadow.specs.AnswersForC.{GivesReplyC};
ghost use Rattle.fairleadow.specs.PricesForC.{priced_run_for};

use crate::telling::tell;
use prices::priced_runs;
use state::State;

/// A run of at most 65,536 words, and its price in cents, which is written in every case, 0 with every refusal but 17 and 18. Refuses as a
/// run does, with 27 after 15; counts ticks.
#[unsafe(no_mangle)]
pub extern "C" fn fairleadow_priced_run(
    image: &[u8],
    state: &mut State,
    prices: &[u16; 32],
    words: &[u16],
    masks: &mut [u32],
    codes: &mut [u8],
    price: &mut u64,
    at: &mut usize,
    made: &mut usize,
) -> u8
    ensures told { GivesReplyC
        (priced_run_for image.now state.old prices.now words.now masks.old codes.old).run.reply result at.new made.new }
    ensures state { state.new ≡ state_priced words.now state.old
        (priced_run_for image.now state.old prices.now words.now masks.old codes.old).run }
    ensures masks { masks.new ≡
        (priced_run_for image.now state.old prices.now words.now masks.old codes.old).run.masks }
    ensures codes { codes.new ≡
        (priced_run_for image.now state.old prices.now words.now masks.old codes.old).run.codes }
    ensures price { price.new ≡ (priced_run_for image.now state.old prices.now words.now masks.old codes.old).price }
{
    let done = priced_runs::priced_run(image, state, prices, words, masks, codes);
    *price = done.price;
    tell(done.answer, at, made)
}
