//! All the little charts, listed, a search that finds the same list (specs/inner/Search), and how many there are (specs/Promises);
//! definitions and laws, with what they promise as a contract.
#![tactic(auto)]

ghost use Rattle.little_charts.specs.Promises.{AllWanted, NoneMissing, InOrder, EachOnce, ShorterFirst, Totals};

/// The little charts are all accepted charts of their form, each once and in the order of their texts.
#[tactic(auto, using(crate::proofs::little_totals::Lengths::little_charts_are_all_once_in_order))]
pub fn little_charts_are_all_once_in_order()
    ensures all_wanted { AllWanted }
    ensures none_missing { NoneMissing }
    ensures in_order { InOrder }
    ensures each_once { EachOnce }
    ensures shorter_first { ShorterFirst }
    ensures totals { Totals }
{}
