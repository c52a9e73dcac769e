// A call that finds the stack full: it drops all open schemes for the handler, or is refused.
ghost use Rattle.std.specs.Prelude.{true, false, ◌≡◌, ◌≤◌};
ghost use Rattle.tables.specs.Table.{table_image, table_label};
ghost use Rattle.state.specs.Kept.{view};
ghost use Rattle.fitness.specs.Fitness.{has_bad_depth, is_call};
ghost use Rattle.ticks.specs.Tick.{top_of, is_full_stack_kept};
ghost use Rattle.ticks.specs.inner.TickContracts.{GivesTickEnd};

use crate::TickEnd;
use state::State;
use tables::Table;
use text::frames::codes::DROP_CODE;

// Whether a full stack is kept: there is no handler, or it is at the bottom.
fn keeps_full(table: &Table, state: &State) -> bool
    ensures { result ≡ is_full_stack_kept (table_image table.now.bytes.now) (view state.now) }
{
    let handler = table.handler();
    if handler == 0 {
        return true;
    }
    let l = state.places[0];
    if l == 1 {
        return true;
    }
    let bottom = table.label(l);
    bottom.owner == handler
}

/// The tick of a call on a full stack: the caller's result is written, then the handler's bit cleared, and its entry is all that the stack
/// holds. Without a handler, or with the handler at the bottom, the call is refused (17) and nothing changes.
pub fn tick_full(table: &Table, state: &mut State, word: u16) -> TickEnd
    requires depth { has_bad_depth (view state.old) ≡ false }
    requires full { state.old.size ≤ state.old.depth }
    requires low { 2 ≤ top_of (view state.old) }
    requires high { top_of (view state.old) ≤ table.now.last }
    requires calls { is_call (table_label table.now.bytes.now (top_of (view state.old))) ≡ true }
    ensures { GivesTickEnd table.now.bytes.now state.old word result state.new }
{
    if keeps_full(table, state) {
        return TickEnd::Full;
    }
    let top = (state.depth as usize) - 1;
    let label = table.numbered_label(state.places[top] as usize);
    let handler = table.handler();
    let entry = table.entry(handler);
    let caller = state.numbers[top];
    state.put_result(label.result, caller);
    state.put_result(1, handler);
    state.put_alone(entry, handler);
    TickEnd::Finished {
        mask: label.mask,
        code: DROP_CODE,
        label: entry,
    }
}
