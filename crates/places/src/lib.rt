//! How many places a chart needs: the longest chain of calls that begins at scheme 1 (`chains`), and the entry point, with refusal 20
//! (`entry`).
#![tactic(auto)]

ghost use Rattle.places.specs.Reported.{AlwaysReported};

pub mod chains;
mod entry;

pub use entry::places_needed;

/// The number of places is the length of the longest chain of calls, and 20 tells of a circle, for every text.
pub fn places_are_the_longest_chain()
    ensures reported { AlwaysReported }
{}
