// A cause on a prepared table: the label whose row a tick takes, the row, the conditions that decide it and the bit.
ghost use Rattle.std.specs.Prelude.{◌≡◌, ◌≤◌, ◌-◌};
ghost use Rattle.tables.specs.Table.{table_image};
ghost use Rattle.state.specs.State.{place_at};
ghost use Rattle.state.specs.Kept.{view};
ghost use Rattle.cause.specs.Cause.{leaves_label, leaving, cause_at, cause_outcome, GivesCause};
ghost use Rattle.cause.specs.inner.TableCauses.{Ordered, leaving_number, table_cause};

use crate::{Cause, against_rows};
use fitness::fitting::is_unfit;
use image::layout::{CARE, PLAIN, RETURN};
use image::{pair, rows_from};
use rows::row_search::find_row;
use state::State;
use tables::Table;
use text::frames::Refusal;
use ticks::bit_of;

// The label n places below that depth, whatever the state: the lowest place where there are fewer, and 0 past the highest.
fn place_below(state: &State, depth: u8, n: u8) -> u8
    ensures { result ≡ place_at (view state.now) (depth - n) }
{
    if depth < n {
        return state.places[0];
    }
    let k = (depth - n) as usize;
    if State::PLACES <= k {
        return 0;
    }
    state.places[k]
}

// The label whose row a tick takes, whatever the state: the top of a plain tick, the one beneath on a return, and 0 where it takes none.
fn leaving_label(table: Table, state: &State) -> u8
    ensures { result ≡ leaving_number (leaving (table_image table.entry.bytes.now) (view state.now)) }
{
    let depth = state.depth;
    let top = place_below(state, depth, 1);
    let kind = table.label(top).kind;
    if kind == PLAIN {
        return top;
    }
    if kind != RETURN {
        return 0;
    }
    if depth <= 1 {
        return 0;
    }
    place_below(state, depth, 2)
}

// The row that label l takes, the conditions that decide it and the bit; 18 where no row matches.
fn cause_at(table: Table, state: &State, l: u8, word: u16) -> Result<Cause, Refusal>
    requires ordered { Ordered table.bytes.now }
    requires low { 2 ≤ l }
    requires high { l ≤ table.last }
    ensures { GivesCause (cause_outcome
        (cause_at (table_image table.entry.bytes.now) (view state.now).bits word (leaves_label l))) result }
{
    let label = table.numbered_label(l as usize);
    let bit = bit_of(state, label.kind, label.called);
    let found = find_row(&table, l as usize, word, bit);
    if table.frames <= found {
        return Err(Refusal::NoRow { ticks: 0 });
    }
    let f = found as usize;
    let first = table.first_of(l as usize);
    let end = table.end_of(l as usize);
    let care = pair(table.bytes, f, CARE);
    let others = against_rows(table.bytes, first, end, word, bit);
    let from = rows_from(table.bytes);
    let row = (f - from) as u16;
    Ok(Cause {
        row,
        mask: care | others,
        bit,
    })
}

/// What makes a tick go where it goes, on a prepared table: an unfit state (15), a tick that takes no row (21), a word that no row
/// matches (18).
pub fn cause_table(table: &Table, state: State, word: u16) -> Result<Cause, Refusal>
    requires { Ordered table.now.bytes.now }
    ensures { GivesCause (table_cause table.now.bytes.now (view state) word) result }
{
    if is_unfit(table, &state) {
        return Err(Refusal::Unfit);
    }
    let own = *table;
    let l = leaving_label(own, &state);
    if l == 0 {
        return Err(Refusal::Rowless);
    }
    cause_at(own, &state, l, word)
}
