// Whether a state fits the image that a prepared table holds: refusal 15.
ghost use Rattle.std.specs.Prelude.{◌≡◌, ◌+◌, ◌≤◌};
ghost use Rattle.words.specs.lists.Numbers.{any};
ghost use Rattle.text.specs.declared.frames.sizes.TheConstants.{SCHEMES};
ghost use Rattle.tables.specs.Table.{table_image};
ghost use Rattle.state.specs.Kept.{view};
ghost use Rattle.fitness.specs.Fitness.{is_badly_served, has_bad_depth, is_unfit};
ghost use Rattle.fitness.specs.inner.FitnessContracts.{is_rebound, is_served_amiss};

use crate::filled::any_filled;
use crate::fit_places::any_unfit;
use crate::is_misserved;
use state::{State, bad_size};
use tables::Table;

// Whether number h of 1 to 16 is served by another scheme than its own.
fn is_rebound(state: &State, h: u8) -> bool
    requires low { 1 ≤ h }
    requires high { h ≤ SCHEMES }
    ensures { result ≡ is_rebound (view state.now) h }
{
    state.serving_at(h) != h
}

// Whether one of three numbers from h on is. Each is looked at: of bytes side by side the compiler makes one comparison, where a processor
// reads words at any address.
fn any_rebound_of_three(state: &State, h: u8) -> bool
    requires low { 1 ≤ h }
    requires high { h + 2 ≤ SCHEMES }
    ensures { result ≡ any (is_rebound (view state.now)) h 3 }
{
    is_rebound(state, h) | is_rebound(state, h + 1) | is_rebound(state, h + 2)
}

// Whether one of four numbers from h on is.
fn any_rebound_of_four(state: &State, h: u8) -> bool
    requires low { 1 ≤ h }
    requires high { h + 3 ≤ SCHEMES }
    ensures { result ≡ any (is_rebound (view state.now)) h 4 }
{
    any_rebound_of_three(state, h) | is_rebound(state, h + 3)
}

// Whether one of four numbers from first on is served by a scheme that may not serve it, with that many schemes and that handler. It is
// called and not taken in: most states have no number that is rebound.
#[inline(never)]
#[tactic(auto, using(crate::proofs::filled::FilledCases::turns))]
fn any_served_amiss(schemes: u8, handler: u8, state: &State, first: u8) -> bool
    requires low { 2 ≤ first }
    requires high { first + 3 ≤ SCHEMES }
    ensures { result ≡ any (is_served_amiss schemes handler (view state.now)) first 4 }
{
    for h in first..first + 4 {
        if is_misserved(schemes, handler, h, state.serving_at(h)) {
            return true;
        }
    }
    false
}

// The same on a table; where none of them is rebound, that is told at once.
#[tactic(auto, using(crate::proofs::fitting::ServedCases::fours))]
fn any_misserved_of_four(table: &Table, state: &State, first: u8) -> bool
    requires low { 2 ≤ first }
    requires high { first + 3 ≤ SCHEMES }
    ensures { result ≡ any (is_badly_served (table_image table.now.bytes.now) (view state.now)) first 4 }
{
    if any_rebound_of_four(state, first) {
        return any_served_amiss(table.schemes, table.handler(), state, first);
    }
    false
}

// Whether some number of 2 to 16 is served by a scheme that may not serve it. Of the last four the first is tried before.
#[tactic(auto, using(crate::proofs::fitting::ServedCases::fours))]
fn any_misserved(table: &Table, state: &State) -> bool
    ensures { result ≡ any (is_badly_served (table_image table.now.bytes.now) (view state.now)) 2 15 }
{
    if any_misserved_of_four(table, state, 2) {
        return true;
    }
    if any_misserved_of_four(table, state, 6) {
        return true;
    }
    if any_misserved_of_four(table, state, 10) {
        return true;
    }
    if any_rebound_of_three(state, 14) {
        return any_served_amiss(table.schemes, table.handler(), state, 13);
    }
    false
}

// Whether the stack size is refused, or the depth lies outside 1 to it.
fn bad_depth(state: &State) -> bool
    ensures { result ≡ has_bad_depth (view state.now) }
{
    let size = state.size;
    let depth = state.depth;
    if bad_size(size as usize) {
        return true;
    }
    if depth == 0 {
        return true;
    }
    size < depth
}

/// Whether a state does not fit the table's image: refusal 15.
// the open places come last, since what is needed after them takes registers through their loop
#[tactic(auto, using(crate::proofs::fitting::TriedInOrder::tried))]
pub fn is_unfit(table: &Table, state: &State) -> bool
    ensures { result ≡ is_unfit (table_image table.now.bytes.now) (view state.now) }
{
    if bad_depth(state) {
        return true;
    }
    if any_misserved(table, state) {
        return true;
    }
    if any_filled(state) {
        return true;
    }
    any_unfit(table, state)
}
