// The turn of one spindle on its state: its tick, unless the record is refused or a call finds no place.
ghost use Rattle.std.specs.Prelude.{◌≤◌};
ghost use Rattle.text.specs.frames.Verdict.{fine};
ghost use Rattle.tables.specs.Table.{table_image};
ghost use Rattle.state.specs.Kept.{view};
ghost use Rattle.runs.specs.inner.Sources.{sourced_tick};
ghost use Rattle.spindles.specs.inner.Parts.{turn, GivesTurn};
ghost use Rattle.spindles.specs.inner.TurnContracts.{GivesSettled};
ghost use Rattle.spindles.specs.declared.layout.TheConstants.{STORE};

use crate::{SpinReport, bad_record, none_left};
use runs::table_runs::tick_table;
use state::State;
use tables::Table;
use text::frames::Refusal;
use ticks::Tick;

// After the tick: where it ended deeper than it began and no place is left, it is undone and refused with 26.
fn settle(old: State, state: &mut State, answer: Result<Tick, Refusal>, taken: usize) -> SpinReport
    requires bound { old.depth ≤ taken }
    requires taken_bound { taken ≤ STORE }
    ensures { GivesSettled old state.old answer taken result state.new }
{
    let before = old.depth as usize;
    let after = state.depth as usize;
    if none_left(before, after, taken) {
        *state = old;
        let answer = Err(Refusal::NoPlace);
        return SpinReport { answer, taken };
    }
    SpinReport {
        answer,
        taken: taken + after - before,
    }
}

/// The turn of one spindle, where `sum` is that of the four depths: 15 by the record, then by the state, 17, 26 and 18; refused, it leaves
/// state and record as they were.
pub fn turn(table: &Table, state: &mut State, sum: usize, taken: usize, word: u16) -> SpinReport
    requires { state.old.depth ≤ sum }
    ensures { GivesTurn (turn (view state.old) sum taken (sourced_tick fine (table_image table.now.bytes.now) (view state.old) word))
        state.old result state.new }
{
    if bad_record(sum, taken) {
        let answer = Err(Refusal::Unfit);
        return SpinReport { answer, taken };
    }
    let old = *state;
    let answer = tick_table(table, state, word);
    settle(old, state, answer, taken)
}
