// A run with a price: all that a run does, of at most 65,536 words, and what its finished ticks cost by a price list.
ghost use Rattle.std.specs.Prelude.{◌≡◌};
ghost use Rattle.text.specs.frames.Answer.{reply, reply_count, verdict_reply};
ghost use Rattle.state.specs.Kept.{view};
ghost use Rattle.prices.specs.priced_runs.PricedRun.{many_verdict, priced_run};
ghost use Rattle.prices.specs.priced_runs.InPlace.{GivesPricedRunOn};

use crate::price_of;
use runs::machine::run;
use state::State;
use tables::sources::Text;
use text::frames::Refusal;
use text::frames::sizes::TABLE;

/// What a run answers, and its price in cents: 0 with every refusal but 17 and 18.
#[derive(Drop)]
pub struct PricedReport {
    pub answer: Result<usize, Refusal>,
    pub price: u64,
}

/// What a run answers, its price in cents, and the state after it.
#[derive(Drop)]
pub struct PricedStateReport {
    pub answer: Result<usize, Refusal>,
    pub state: State,
    pub price: u64,
}

// How many ticks were finished.
fn count_of(answer: Result<usize, Refusal>) -> usize
    ensures { result ≡ reply_count (reply answer) }
{
    match answer {
        Ok(count) => count,
        Err(refusal) => refusal.ticks(),
    }
}

// The answer to more words than are priced: what refuses a run of no words, or 27. It runs on a copy, since a run tidies the state.
fn refuse_many(image: &[u8], state: &State) -> Result<usize, Refusal>
    ensures { reply result ≡ verdict_reply (many_verdict image.now (view state.now)) 0 }
{
    let mut copy = *state;
    let words = [0u16; 1];
    let mut masks = [0u32; 1];
    let mut codes = [0u8; 1];
    run::<Text, TABLE>(image, &mut copy, &words[..0], &mut masks, &mut codes)?;
    Err(Refusal::ManyWords)
}

/// A run with its price, on a state in place. Refused is what the image check refuses, then 15, 27 for more than 65,536 words, and 16
/// before the first tick, 17 and 18 tick by tick.
pub fn priced_run(
    image: &[u8],
    state: &mut State,
    prices: &[u16; 32],
    words: &[u16],
    masks: &mut [u32],
    codes: &mut [u8],
) -> PricedReport
    ensures { GivesPricedRunOn
        (priced_run image.now (view state.old) prices.now words.now masks.old codes.old)
        words.now state.old result.answer result.price state.new masks.new codes.new }
{
    if 65536 < words.len() {
        let answer = refuse_many(image, state);
        return PricedReport { answer, price: 0 };
    }
    let answer = run::<Text, TABLE>(image, state, words, masks, codes);
    let n = count_of(answer);
    let price = price_of(prices, &masks[..n]);
    PricedReport { answer, price }
}
