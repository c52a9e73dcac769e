// The calls from C that make a state, run and tick, on an image and live on a prepared table.
ghost use Rattle.std.specs.Prelude.{◌≡◌};
ghost use Rattle.state.specs.State.{fresh_state};
ghost use Rattle.state.specs.Kept.{stored};
ghost use Rattle.runs.specs.InPlace.{state_after, if_ticked};
ghost use Rattle.fairleadow.specs.AnswersForC.{GivesReplyC};
ghost use Rattle.fairleadow.specs.RunsForC.{run_for, live_run_for, tick_for, live_tick_for};

use crate::telling::{tell, tell_tick};
use runs::machine;
use state::State;
use tables::sources::{Prepared, Text};
use text::frames::sizes::TABLE;

/// Writes a fresh state for a stack of `size` places, 1 to 32, with scheme 1 open and each number served by its own scheme; counts 0. With
/// another size it refuses with 14, and the state is of zeros.
#[unsafe(no_mangle)]
pub extern "C" fn fairleadow_fresh(
    size: usize,
    state: &mut State,
    at: &mut usize,
    made: &mut usize,
) -> u8
    ensures told { GivesReplyC (fresh_state size).reply result at.new made.new }
    ensures state { state.new ≡ stored (fresh_state size).state }
{
    let done = State::fresh(size);
    *state = done.state;
    tell(done.answer, at, made)
}

/// One tick a word, each with its mask and its code, up to the first that is refused; counts ticks. Refuses as the image check does, then
/// with 15 and 16 before the first tick, and 17 and 18 tick by tick.
#[tactic(auto, using(runs::proofs::machine::Sourced::sourced))]
#[unsafe(no_mangle)]
pub extern "C" fn fairleadow_run(
    image: &[u8],
    state: &mut State,
    words: &[u16],
    masks: &mut [u32],
    codes: &mut [u8],
    at: &mut usize,
    made: &mut usize,
) -> u8
    ensures told { GivesReplyC
        (run_for image.now state.old words.now masks.old codes.old).reply result at.new made.new }
    ensures state { state.new ≡ state_after state.old (run_for image.now state.old words.now masks.old codes.old) }
    ensures masks { masks.new ≡ (run_for image.now state.old words.now masks.old codes.old).masks }
    ensures codes { codes.new ≡ (run_for image.now state.old words.now masks.old codes.old).codes }
{
    let answer = machine::run::<Text, TABLE>(image, state, words, masks, codes);
    tell(answer, at, made)
}

/// The same on a prepared table. Refuses with 11, 15 and 16 before the first tick, 17 and 18 tick by tick.
#[tactic(auto, using(runs::proofs::machine::Sourced::sourced))]
#[unsafe(no_mangle)]
pub extern "C" fn fairleadow_live_run(
    table: &[u8],
    state: &mut State,
    words: &[u16],
    masks: &mut [u32],
    codes: &mut [u8],
    at: &mut usize,
    made: &mut usize,
) -> u8
    ensures told { GivesReplyC
        (live_run_for table.now state.old words.now masks.old codes.old).reply result at.new made.new }
    ensures state { state.new ≡ state_after state.old
        (live_run_for table.now state.old words.now masks.old codes.old) }
    ensures masks { masks.new ≡ (live_run_for table.now state.old words.now masks.old codes.old).masks }
    ensures codes { codes.new ≡ (live_run_for table.now state.old words.now masks.old codes.old).codes }
{
    let answer = machine::run::<Prepared, 0>(table, state, words, masks, codes);
    tell(answer, at, made)
}

/// One tick; counts 1. Refuses as the image check does, then with 15, 17 and 18: a refused tick writes no mask, no code and no state.
#[tactic(auto, using(runs::proofs::machine::Sourced::sourced))]
#[unsafe(no_mangle)]
pub extern "C" fn fairleadow_tick(
    image: &[u8],
    state: &mut State,
    word: u16,
    mask: &mut u32,
    code: &mut u8,
    at: &mut usize,
    made: &mut usize,
) -> u8
    ensures told { GivesReplyC (tick_for image.now state.old word).reply result at.new made.new }
    ensures state { state.new ≡ if_ticked (tick_for image.now state.old word)
        (stored (tick_for image.now state.old word).state) state.old }
    ensures mask { mask.new ≡ if_ticked (tick_for image.now state.old word)
        (tick_for image.now state.old word).mask mask.old }
    ensures code { code.new ≡ if_ticked (tick_for image.now state.old word)
        (tick_for image.now state.old word).code code.old }
{
    let answer = machine::tick::<Text, TABLE>(image, state, word);
    tell_tick(answer, mask, code, at, made)
}

/// One tick on a prepared table; counts 1. Refuses with 11, 15, 17 and 18: a refused tick writes no mask, no code and no state.
#[tactic(auto, using(runs::proofs::machine::Sourced::sourced))]
#[unsafe(no_mangle)]
pub extern "C" fn fairleadow_live_tick(
    table: &[u8],
    state: &mut State,
    word: u16,
    mask: &mut u32,
    code: &mut u8,
    at: &mut usize,
    made: &mut usize,
) -> u8
    ensures told { GivesReplyC (live_tick_for table.now state.old word).reply result at.new made.new }
    ensures state { state.new ≡ if_ticked (live_tick_for table.now state.old word)
        (stored (live_tick_for table.now state.old word).state) state.old }
    ensures mask { mask.new ≡ if_ticked (live_tick_for table.now state.old word)
        (live_tick_for table.now state.old word).mask mask.old }
    ensures code { code.new ≡ if_ticked (live_tick_for table.now state.old word)
        (live_tick_for table.now state.old word).code code.old }
{
    let answer = machine::tick::<Prepared, 0>(table, state, word);
    tell_tick(answer, mask, code, at, made)
}
