// The tick of a call, in place: there is a free place, or the stack is full.
ghost use Rattle.std.specs.Prelude.{true, false, ◌≡◌, ◌≤◌};
ghost use Rattle.tables.specs.Table.{table_image, table_label};
ghost use Rattle.state.specs.State.{entry_at};
ghost use Rattle.state.specs.Kept.{view};
ghost use Rattle.fitness.specs.Fitness.{has_bad_depth, is_call};
ghost use Rattle.ticks.specs.Tick.{top_of};
ghost use Rattle.ticks.specs.inner.TickContracts.{GivesTickEnd};
ghost use Rattle.ticks.specs.inner.Callees.{IsCallee};

use crate::TickEnd;
use crate::codes::code_of;
use crate::full_stack::tick_full;
use image::layout::CALLED;
use state::State;
use tables::Table;

// What a call opens: the number that it calls, the scheme that serves it, and the entry of that scheme.
#[derive(Drop)]
struct Callee {
    number: u8,
    server: u8,
    entry: u8,
}

// The entry of the scheme that serves, 0 where the table has none of that number.
fn server_entry(table: &Table, server: u8) -> u8
    ensures { result ≡ entry_at (table_image table.now.bytes.now) server }
{
    if table.schemes < server {
        return 0;
    }
    table.entry(server)
}

// The callee of a label that calls no number of 1 to H, as only a table that no preparation makes has one: its number counts as 0, which
// is served as number 1 is.
fn stray_callee(table: &Table, state: &State) -> Callee
    ensures { IsCallee table.now.bytes.now (view state.now) 0 result }
{
    let server = state.serving_at(1);
    let entry = server_entry(table, server);
    Callee {
        number: 0,
        server,
        entry,
    }
}

// The callee of label l. Each test is a jump that is foreseen, where a choice between two values would have to wait for them: the next
// label is known as soon as three bytes, one after the other, are read.
fn callee_of(table: &Table, state: &State, l: usize) -> Callee
    requires low { 2 ≤ l }
    requires high { l ≤ table.now.last }
    ensures { IsCallee table.now.bytes.now (view state.now) (table_label table.now.bytes.now l).called result }
{
    let number = table.field(l, CALLED);
    if table.schemes < number {
        return stray_callee(table, state);
    }
    if number == 0 {
        return stray_callee(table, state);
    }
    let server = state.serving_at(number);
    if server == 0 {
        let entry = table.entry(1);
        return Callee {
            number,
            server,
            entry,
        };
    }
    let entry = server_entry(table, server);
    Callee {
        number,
        server,
        entry,
    }
}

/// The tick of a call: the caller's result is written, then the bit of the number called is cleared, and the entry of the scheme that
/// serves the number goes above the top.
pub fn tick_call(table: &Table, state: &mut State, l: u8, word: u16) -> TickEnd
    requires depth { has_bad_depth (view state.old) ≡ false }
    requires label { l ≡ top_of (view state.old) }
    requires low { 2 ≤ l }
    requires high { l ≤ table.now.last }
    requires calls { is_call (table_label table.now.bytes.now l) ≡ true }
    ensures { GivesTickEnd table.now.bytes.now state.old word result state.new }
{
    let depth = state.depth;
    if state.size <= depth {
        return tick_full(table, state, word);
    }
    let top = (depth as usize) - 1;
    let label = table.numbered_label(l as usize);
    let callee = callee_of(table, state, l as usize);
    let called = callee.number;
    let server = callee.server;
    let entry = callee.entry;
    let caller = state.numbers[top];
    state.put_result(label.result, caller);
    state.put_result(1, called);
    state.open_place(depth as usize, entry, called, server);
    state.depth = depth + 1;
    TickEnd::Finished {
        mask: label.mask,
        code: code_of(label.kind, called),
        label: entry,
    }
}
