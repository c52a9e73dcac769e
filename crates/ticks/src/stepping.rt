// One tick on a prepared table and a state, in place, by the label at the top.
ghost use Rattle.std.specs.Prelude.{false, ◌≡◌, ◌≤◌};
ghost use Rattle.image.specs.declared.layout.TheConstants.{PLAIN};
ghost use Rattle.tables.specs.Table.{table_label};
ghost use Rattle.state.specs.Kept.{view};
ghost use Rattle.fitness.specs.Fitness.{has_bad_depth};
ghost use Rattle.ticks.specs.Tick.{top_of};
ghost use Rattle.ticks.specs.inner.TickContracts.{GivesTickEnd};

use crate::TickEnd;
use crate::calls::tick_call;
use crate::returns::tick_back;
use image::layout::{FUNCTION_CALL, NO_LABEL, OPERATION_CALL};
use rows::row_search::next_free;
use state::State;
use tables::Table;
use text::frames::codes::{HOME_CODE, PLAIN_CODE};

// A plain tick: the top takes its row, which no bit decides.
fn tick_plain(table: &Table, state: &mut State, l: u8, word: u16) -> TickEnd
    requires depth { has_bad_depth (view state.old) ≡ false }
    requires label { l ≡ top_of (view state.old) }
    requires low { 2 ≤ l }
    requires high { l ≤ table.now.last }
    requires plain { (table_label table.now.bytes.now l).kind ≡ PLAIN }
    ensures { GivesTickEnd table.now.bytes.now state.old word result state.new }
{
    let next = next_free(table, l as usize, word);
    if NO_LABEL <= next {
        return TickEnd::NoRow;
    }
    let after = next as u8;
    let label = table.numbered_label(l as usize);
    let number = state.numbers[(state.depth as usize) - 1];
    state.put_result(label.result, number);
    // the depth is read again, since to keep where the top stands takes a register, and on a Cortex-M3 two instructions a tick
    state.put_place((state.depth as usize) - 1, after);
    TickEnd::Finished {
        mask: label.mask,
        code: PLAIN_CODE,
        label: after,
    }
}

// The home tick: the entry of scheme 1 takes the place of the top.
fn tick_home(table: &Table, state: &mut State, word: u16) -> TickEnd
    requires depth { has_bad_depth (view state.old) ≡ false }
    requires label { top_of (view state.old) ≡ 0 }
    ensures { GivesTickEnd table.now.bytes.now state.old word result state.new }
{
    let top = (state.depth as usize) - 1;
    let entry = table.entry(1);
    state.put_place(top, entry);
    TickEnd::Finished {
        mask: 0,
        code: HOME_CODE,
        label: entry,
    }
}

// A tick of a label of 2 up, by its kind; one above M has no row.
fn tick_numbered(table: &Table, state: &mut State, l: u8, word: u16) -> TickEnd
    requires depth { has_bad_depth (view state.old) ≡ false }
    requires label { l ≡ top_of (view state.old) }
    requires low { 2 ≤ l }
    ensures { GivesTickEnd table.now.bytes.now state.old word result state.new }
{
    if table.last < l {
        return TickEnd::NoRow;
    }
    let kind = table.kind(l as usize);
    match kind {
        OPERATION_CALL..=FUNCTION_CALL => tick_call(table, state, l, word),
        _ => tick_plain(table, state, l, word),
    }
}

/// One tick of a state whose top is label `l`.
pub fn tick_on(table: &Table, state: &mut State, l: u8, word: u16) -> TickEnd
    requires depth { has_bad_depth (view state.old) ≡ false }
    requires label { l ≡ top_of (view state.old) }
    ensures { GivesTickEnd table.now.bytes.now state.old word result state.new }
{
    match l {
        0 => tick_home(table, state, word),
        1 => tick_back(table, state, word),
        _ => tick_numbered(table, state, l, word),
    }
}
