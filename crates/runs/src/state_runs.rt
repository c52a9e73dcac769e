// Runs and ticks that take a state and hand one back.
ghost use Rattle.state.specs.Kept.{view};
ghost use Rattle.runs.specs.Run.{run};
ghost use Rattle.runs.specs.TickOutcome.{image_tick};
ghost use Rattle.runs.specs.machine.Live.{live_run, live_tick};
ghost use Rattle.runs.specs.InPlace.{GivesRunOn, GivesTickOn};

use crate::machine;
use state::{State, StateReport};
use tables::sources::{Prepared, Text};
use text::frames::Refusal;
use text::frames::sizes::TABLE;
use ticks::Tick;

/// A tick's answer, and the state after it.
#[derive(Drop)]
pub struct TickStateReport {
    pub answer: Result<Tick, Refusal>,
    pub state: State,
}

/// One tick a word, up to the first that is refused. Refused is what the image check refuses, 15 and 16 before the first tick, 17 and 18
/// tick by tick.
#[tactic(auto, using(crate::proofs::machine::Sourced::sourced))]
pub fn run(
    image: &[u8],
    state: State,
    words: &[u16],
    masks: &mut [u32],
    codes: &mut [u8],
) -> StateReport
    ensures { GivesRunOn (run image.now (view state) words.now masks.old codes.old)
        state result.answer result.state masks.new codes.new }
{
    let mut after = state;
    let answer = machine::run::<Text, TABLE>(image, &mut after, words, masks, codes);
    StateReport {
        answer,
        state: after,
    }
}

/// One tick; refused, it hands back the state as it was. Refused is what a run is refused for, but 16.
#[tactic(auto, using(crate::proofs::machine::Sourced::sourced))]
pub fn tick_image(image: &[u8], state: State, word: u16) -> TickStateReport
    ensures { GivesTickOn (image_tick image.now (view state) word) state result.answer result.state }
{
    let mut after = state;
    let answer = machine::tick::<Text, TABLE>(image, &mut after, word);
    TickStateReport {
        answer,
        state: after,
    }
}

/// A run on a prepared table: 11, then 15 to 18 as in any run.
#[tactic(auto, using(crate::proofs::machine::Sourced::sourced))]
pub fn live_run(
    table: &[u8],
    state: State,
    words: &[u16],
    masks: &mut [u32],
    codes: &mut [u8],
) -> StateReport
    ensures { GivesRunOn (live_run table.now (view state) words.now masks.old codes.old)
        state result.answer result.state masks.new codes.new }
{
    let mut after = state;
    let answer = machine::run::<Prepared, 0>(table, &mut after, words, masks, codes);
    StateReport {
        answer,
        state: after,
    }
}

/// One tick on a prepared table: 11, then 15, 17 and 18.
#[tactic(auto, using(crate::proofs::machine::Sourced::sourced))]
pub fn live_tick(table: &[u8], state: State, word: u16) -> TickStateReport
    ensures { GivesTickOn (live_tick table.now (view state) word) state result.answer result.state }
{
    let mut after = state;
    let answer = machine::tick::<Prepared, 0>(table, &mut after, word);
    TickStateReport {
        answer,
        state: after,
    }
}
