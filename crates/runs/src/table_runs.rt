// A run and a tick on a prepared table: 15 and 16 are tried, then the ticks are made.
ghost use Rattle.std.specs.Prelude.{◌≡◌, Err};
ghost use Rattle.text.specs.frames.Answer.{refusal, reply};
ghost use Rattle.text.specs.frames.Verdict.{fine};
ghost use Rattle.tables.specs.Table.{table_image};
ghost use Rattle.state.specs.Kept.{view};
ghost use Rattle.ticks.specs.inner.TickContracts.{number_of};
ghost use Rattle.runs.specs.Run.{has_no_room};
ghost use Rattle.runs.specs.InPlace.{GivesRunOn, GivesTickOn};
ghost use Rattle.runs.specs.inner.Sources.{sourced_run, sourced_tick};

use crate::{RunEnd, tick_all, tick_word};
use fitness::fitting::is_unfit;
use state::State;
use tables::Table;
use text::frames::Refusal;
use ticks::{Stop, Tick};

// Whether a buffer has less room than words.
fn no_room(words: &[u16], masks: &[u32], codes: &[u8]) -> bool
    ensures { result ≡ has_no_room words.now masks.now codes.now }
{
    masks.len() < words.len() || codes.len() < words.len()
}

// The refusal of a tick by what stops it, 17 or 18: none was finished before it.
fn refusal_of(stop: Stop) -> Refusal
    ensures { reply (Err result) ≡ refusal (number_of stop) 0 0 }
{
    match stop {
        Stop::Full => Refusal::Full { ticks: 0 },
        Stop::NoRow => Refusal::NoRow { ticks: 0 },
    }
}

/// One tick a word on a prepared table, up to the first that is refused: 15 and 16 before the first tick, 17 and 18 tick by tick.
pub fn run_table(
    table: &Table,
    state: &mut State,
    words: &[u16],
    masks: &mut [u32],
    codes: &mut [u8],
) -> Result<usize, Refusal>
    ensures { GivesRunOn (sourced_run fine (table_image table.now.bytes.now) (view state.old) words.now masks.old
        codes.old) state.old result state.new masks.new codes.new }
{
    if is_unfit(table, state) {
        return Err(Refusal::Unfit);
    }
    if no_room(words, masks, codes) {
        return Err(Refusal::NoRoom);
    }
    let ended = tick_all(table, state, words, masks, codes);
    state.tidy();
    match ended {
        RunEnd::Over(ticks) => Ok(ticks),
        RunEnd::Full(ticks) => Err(Refusal::Full { ticks }),
        RunEnd::NoRow(ticks) => Err(Refusal::NoRow { ticks }),
    }
}

/// One tick on a prepared table: 15, then 17 and 18; a refused one leaves the state as it was.
pub fn tick_table(table: &Table, state: &mut State, word: u16) -> Result<Tick, Refusal>
    ensures { GivesTickOn (sourced_tick fine (table_image table.now.bytes.now) (view state.old) word)
        state.old result state.new }
{
    if is_unfit(table, state) {
        return Err(Refusal::Unfit);
    }
    match tick_word(table, state, word) {
        Ok(tick) => {
            state.tidy();
            Ok(tick)
        }
        Err(stop) => Err(refusal_of(stop)),
    }
}
