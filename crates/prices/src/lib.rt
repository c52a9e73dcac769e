//! What ticks cost by a price list: a sum over the bits of their masks, in cents. `priced_runs` makes a run with its price on a
//! state in place, `priced_states` on a state by value, of at most 65,536 words (27).
#![tactic(auto)]

ghost use Rattle.std.specs.Prelude.{◌≡◌, ◌≤◌, length};
ghost use Rattle.prices.specs.Prices.{tick_price, hundredths, price};
ghost use Rattle.prices.specs.Promises.{DoesAll, ByTheMasks, PricedStateStands, TickMost, HundredthsMost};

pub mod priced_runs;
pub mod priced_states;

// Of one tick: each turn takes the lowest set bit off the mask, so that a mask of few bits is few turns.
fn tick_price(prices: &[u16; 32], mask: u32) -> u64
    ensures { result ≡ tick_price prices.now mask }
{
    let mut total: u64 = 0;
    let mut rest = mask;
    while rest != 0 {
        let j = u32::trailing_zeros(rest) as usize;
        total += prices[j] as u64;
        rest = rest & (rest - 1);
    }
    total
}

// Of all ticks, in hundredths of a cent.
fn hundredths_of(prices: &[u16; 32], masks: &[u32]) -> u64
    requires { length masks.now ≤ 65536 }
    ensures summed { result ≡ hundredths prices.now masks.now }
    ensures small { result ≤ 137436856320 }
{
    let mut total: u64 = 0;
    for i in 0..masks.len() {
        total += tick_price(prices, masks[i]);
    }
    total
}

/// What ticks with these masks cost together, in cents: the sum of their prices, which are in hundredths of a cent, divided once, halves upward.
pub fn price_of(prices: &[u16; 32], masks: &[u32]) -> u64
    requires { length masks.now ≤ 65536 }
    ensures { result ≡ price prices.now masks.now }
{
    (hundredths_of(prices, masks) + 50) / 100
}

/// A priced run of at most 65,536 words does all that a run does, and its price is that of the masks written, as many as its answer counts,
/// whatever the image, the state, the price list and the words. The state that it leaves stands for the one that a run gives.
pub fn priced_runs_are_runs()
    ensures run { DoesAll }
    ensures price { ByTheMasks }
    ensures state { PricedStateStands }
{}

/// By prices of 0 to 65,535 a tick costs at most 2,097,120 hundredths of a cent, and ticks as often that as they are.
pub fn prices_stay_small()
    ensures a_tick { TickMost }
    ensures ticks { HundredthsMost }
{}
