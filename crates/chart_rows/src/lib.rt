//! Labels and rows of a chart, before anything is written of them.
//! `chart_labels` gives each stop its label, and `numbers` notes what paths need; `paths` follows them through conditions that take no
//! tick, `rows` counts them up to a limit, and `row_bounds` bounds them without following any.
#![tactic(auto)]

pub mod chart_labels;
mod numbers;
mod paths;
mod row_bounds;
mod rows;

pub use numbers::note_nodes;
pub use paths::settle;
pub use row_bounds::bound_rows;
pub use rows::count_rows;
use text::frames::sizes::{NODES, ROWS};

/// How long notes on nodes are: a label and a number for each.
pub const NOTES: usize = 2 * NODES;

/// Counting stops at one row too many.
pub const COUNTED: usize = ROWS + 1;
