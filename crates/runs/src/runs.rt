// Ticks on a prepared table, one or one for each word.
ghost use Rattle.std.specs.Prelude.{◌≡◌, ◌≤◌, false, length};
ghost use Rattle.state.specs.Kept.{view};
ghost use Rattle.fitness.specs.Fitness.{has_bad_depth};
ghost use Rattle.runs.specs.inner.RunContracts.{GivesTick, GivesRunEnd};

use super::RunEnd;
use state::State;
use tables::Table;
use ticks::stepping::tick_on;
use ticks::{Stop, Tick, TickEnd};

/// One tick a word, until one is stopped; its mask and its code are written with each finished tick.
// called and not taken in: it is long, and runs and counts of full stacks both make ticks by it
#[inline(never)]
pub fn tick_all(
    table: &Table,
    state: &mut State,
    words: &[u16],
    masks: &mut [u32],
    codes: &mut [u8],
) -> RunEnd
    requires depth { has_bad_depth (view state.old) ≡ false }
    requires room_for_masks { length words.now ≤ length masks.old }
    requires room_for_codes { length words.now ≤ length codes.old }
    ensures { GivesRunEnd table.now.bytes.now state.old words.now masks.old
        codes.old result state.new masks.new codes.new }
{
    // a copy, which no writing to the state can change, so that H and M are not read again in each tick; by its parts, since a struct that is
    // lent on is copied byte by byte
    let own = Table {
        bytes: table.bytes,
        frames: table.frames,
        schemes: table.schemes,
        last: table.last,
    };
    let mut label = state.places[(state.depth as usize) - 1];
    let mut i: usize = 0;
    while i < words.len() {
        match tick_on(&own, state, label, words[i]) {
            TickEnd::Finished {
                mask,
                code,
                label: next,
            } => {
                label = next;
                masks[i] = mask;
                codes[i] = code;
                i += 1;
            }
            TickEnd::Full => return RunEnd::Full(i),
            TickEnd::NoRow => return RunEnd::NoRow(i),
        }
    }
    RunEnd::Over(i)
}

/// One tick; stopped, it changes no state.
// by the loop of a run: so the tick stands in that loop alone, and the compiler takes it in
pub fn tick_word(table: &Table, state: &mut State, word: u16) -> Result<Tick, Stop>
    requires { has_bad_depth (view state.old) ≡ false }
    ensures { GivesTick table.now.bytes.now state.old word result state.new }
{
    let words = [word];
    let mut masks = [0u32; 1];
    let mut codes = [0u8; 1];
    match tick_all(table, state, &words, &mut masks, &mut codes) {
        RunEnd::Over(_) => Ok(Tick {
            mask: masks[0],
            code: codes[0],
        }),
        RunEnd::Full(_) => Err(Stop::Full),
        RunEnd::NoRow(_) => Err(Stop::NoRow),
    }
}
