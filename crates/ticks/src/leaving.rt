// The label whose row a tick takes, and the ticks that take none.
ghost use Rattle.std.specs.Prelude.{false, ◌≡◌, ◌≤◌};
ghost use Rattle.state.specs.Kept.{view};
ghost use Rattle.fitness.specs.Fitness.{has_bad_depth};
ghost use Rattle.ticks.specs.Tick.{top_of};
ghost use Rattle.ticks.specs.inner.Leaves.{GivesLeaving};

use crate::bit_of;
use image::layout::{FUNCTION_CALL, NO_BIT, OPERATION_CALL};
use state::State;
use tables::Table;

/// A label whose row a tick takes, and the bit that decides among its rows: 0 or 1, and 2 where none does.
#[derive(Clone, Copy)]
pub struct Leaving {
    pub label: u8,
    pub bit: u8,
}

// The top of a plain tick; a call takes no row, and a label above M has none.
fn leaving_top(table: &Table, state: &State, l: u8) -> Option<Leaving>
    requires depth { has_bad_depth (view state.now) ≡ false }
    requires label { l ≡ top_of (view state.now) }
    requires low { 2 ≤ l }
    ensures { GivesLeaving table.now.bytes.now (view state.now) result }
{
    if table.last < l {
        return None;
    }
    let kind = table.kind(l as usize);
    match kind {
        OPERATION_CALL..=FUNCTION_CALL => None,
        _ => Some(Leaving {
            label: l,
            bit: NO_BIT,
        }),
    }
}

// The label beneath a return; at depth 1 there is none.
fn leaving_beneath(table: &Table, state: &State) -> Option<Leaving>
    requires depth { has_bad_depth (view state.now) ≡ false }
    requires label { top_of (view state.now) ≡ 1 }
    ensures { GivesLeaving table.now.bytes.now (view state.now) result }
{
    if state.depth < 2 {
        return None;
    }
    let l = state.places[(state.depth as usize) - 2];
    if l < 2 {
        return None;
    }
    if table.last < l {
        return None;
    }
    let label = table.numbered_label(l as usize);
    let bit = bit_of(state, label.kind, label.called);
    Some(Leaving { label: l, bit })
}

/// The label whose row the next tick takes; none where it looks at no row, and so does not depend on its word.
pub fn leaving_of(table: &Table, state: &State) -> Option<Leaving>
    requires depth { has_bad_depth (view state.now) ≡ false }
    ensures { GivesLeaving table.now.bytes.now (view state.now) result }
{
    let l = state.places[(state.depth as usize) - 1];
    match l {
        0 => None,
        1 => leaving_beneath(table, state),
        _ => leaving_top(table, state, l),
    }
}
