// The stack machine on a state that the caller keeps: runs and ticks by any source of a table, an image's text or a prepared table.
ghost use Rattle.state.specs.Kept.{view};
ghost use Rattle.runs.specs.InPlace.{GivesRunOn, GivesTickOn};
ghost use Rattle.runs.specs.inner.Sources.{sourced_run, sourced_tick};

use crate::table_runs::{run_table, tick_table};
use state::State;
use tables::sources::Source;
use text::frames::Refusal;
use ticks::Tick;

/// One tick a word, up to the first that is refused. Refused is what the source is refused for, 15 and 16 before the first tick, 17 and 18
/// tick by tick.
pub fn run<S: Source<ROOM>, const ROOM: usize>(
    source: &[u8],
    state: &mut State,
    words: &[u16],
    masks: &mut [u32],
    codes: &mut [u8],
) -> Result<usize, Refusal>
    ensures { GivesRunOn (sourced_run (S.verdict source.now) (S.image source.now) (view state.old) words.now masks.old
        codes.old) state.old result state.new masks.new codes.new }
{
    let mut room = [0u8; ROOM];
    let table = S::table(source, &mut room)?;
    run_table(&table, state, words, masks, codes)
}

/// One tick; a refused one leaves the state as it was. Refused is what a run is refused for, but 16.
pub fn tick<S: Source<ROOM>, const ROOM: usize>(
    source: &[u8],
    state: &mut State,
    word: u16,
) -> Result<Tick, Refusal>
    ensures { GivesTickOn (sourced_tick (S.verdict source.now) (S.image source.now) (view state.old) word)
        state.old result state.new }
{
    let mut room = [0u8; ROOM];
    let table = S::table(source, &mut room)?;
    tick_table(&table, state, word)
}
