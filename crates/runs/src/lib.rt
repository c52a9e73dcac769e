//! Ticks over the words of a run, one a word up to the first that is refused (`runs`), once 15 and 16 are tried (`table_runs`).
//! `machine` makes runs and ticks on a state in place, by any source of a table; `state_runs` makes them on a state by value, on an image
//! and live on a prepared table, and `kept_states` a tick on a state behind a reference by the one by value.
#![tactic(auto)]

ghost use Rattle.runs.specs.machine.Prepared.{LiveRunIs, LiveTickIs};

pub mod kept_states;
pub mod machine;
mod runs;
pub mod state_runs;
pub mod table_runs;

pub use runs::{tick_all, tick_word};

/// How the ticks over the words of a run end: each word had its tick, or one was stopped; with how many were finished.
#[derive(Clone, Copy)]
pub enum RunEnd {
    Over(usize),
    Full(usize),
    NoRow(usize),
}

/// A live run and a live tick on a prepared table are the run and the tick on the image it was prepared from, for every state and word.
pub fn live_calls_are_those_on_the_image()
    ensures run { LiveRunIs }
    ensures tick { LiveTickIs }
{}
