//! How often the stack fills: all lists of words, counted by how their runs end.
//! `fill_counts` has the tallies, `fill_lists` counts all lists on a prepared table, where lists that share a beginning share its ticks,
//! and `counting` is the entry point, with refusals 14 and 28.
#![tactic(auto)]

pub mod counting;
mod fill_counts;
mod fill_lists;

ghost use Rattle.fillings.specs.Promises.{AllLists, SumsUp};

pub use fill_counts::Tally;

/// The lists counted are all lists of so many words that use so many conditions, each just once, and those that run to their end, meet 17
/// and meet 18 are together as many, for every accepted image.
pub fn every_list_is_counted_once()
    ensures once { AllLists }
    ensures sum { SumsUp }
{}
