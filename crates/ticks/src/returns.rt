// The tick of a return, in place.
ghost use Rattle.std.specs.Prelude.{false, ◌≡◌, ◌≤◌};
ghost use Rattle.tables.specs.Table.{table_image};
ghost use Rattle.rows.specs.Rows.{next_of};
ghost use Rattle.state.specs.Kept.{view};
ghost use Rattle.fitness.specs.Fitness.{has_bad_depth};
ghost use Rattle.ticks.specs.Tick.{top_of};
ghost use Rattle.ticks.specs.inner.TickContracts.{beneath, GivesTickEnd};

use crate::{TickEnd, bit_of};
use image::layout::NO_LABEL;
use rows::row_search::next_row;
use state::State;
use tables::Table;
use text::frames::codes::RETURN_CODE;

// Where the label beneath the top leads, or NO_LABEL where no row of it matches.
fn next_beneath(table: &Table, state: &State, word: u16) -> u16
    requires depth { has_bad_depth (view state.now) ≡ false }
    requires deep { 2 ≤ state.now.depth }
    ensures { result ≡ next_of (beneath (table_image table.now.bytes.now) (view state.now) word) }
{
    let l = state.places[(state.depth as usize) - 2];
    if l < 2 {
        return NO_LABEL;
    }
    if table.last < l {
        return NO_LABEL;
    }
    let label = table.numbered_label(l as usize);
    let bit = bit_of(state, label.kind, label.called);
    next_row(table, l as usize, word, bit)
}

/// A return: the top is taken off, and the label beneath takes its row; at depth 1, where the handler ends, scheme 1 follows at label 0.
pub fn tick_back(table: &Table, state: &mut State, word: u16) -> TickEnd
    requires depth { has_bad_depth (view state.old) ≡ false }
    requires label { top_of (view state.old) ≡ 1 }
    ensures { GivesTickEnd table.now.bytes.now state.old word result state.new }
{
    let depth = state.depth;
    if depth < 2 {
        state.put_alone(0, 1);
        return TickEnd::Finished {
            mask: 0,
            code: RETURN_CODE,
            label: 0,
        };
    }
    let next = next_beneath(table, state, word);
    if NO_LABEL <= next {
        return TickEnd::NoRow;
    }
    let after = next as u8;
    state.open_place((depth as usize) - 1, 0, 0, 0);
    state.put_place((depth as usize) - 2, after);
    state.depth = depth - 1;
    TickEnd::Finished {
        mask: 0,
        code: RETURN_CODE,
        label: after,
    }
}
