//! What a chart is, as node records of ten bytes, and why records are refused: definitions and their laws.
//! The code has the layout of a record (`layout`) and how a field of it is read.
#![tactic(auto)]

ghost use Rattle.charts.specs.Meaning.{CircleMeans, CutOffMeans};

mod fields;
pub mod layout;

pub use fields::field;

/// Refusal 8 tells of circles of conditions, and 9 of nodes to which no path leads from the Begin of their scheme.
#[tactic(auto, using(crate::proofs::Meaning::circles_and_paths_decide_8_and_9))]
pub fn circles_and_paths_decide_8_and_9()
    ensures circle { CircleMeans }
    ensures cut_off { CutOffMeans }
{}
