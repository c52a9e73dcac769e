//! How often the stack fills on the image of a chart, by its walk: the lists that fill it are those whose walk goes too deep; definitions,
//! and theorems as contracts.
#![tactic(auto)]

ghost use Rattle.fill_walks.specs.Promises.{AlwaysCounted, ByTheWalk};
ghost use Rattle.fill_walks.specs.ForC.{SumsUpC, ByTheWalkC};

/// On the image of a chart the lists of words that meet 17 are those whose walk goes too deep, and none meets 18; nothing but 14 and 28
/// refuses to count. From C too, where the three counts written are all lists on every accepted image.
#[tactic(auto, using(crate::proofs::ForC::stacks_fill_where_walks_go_too_deep))]
pub fn stacks_fill_where_walks_go_too_deep()
    ensures counted { AlwaysCounted }
    ensures definitions { ByTheWalk }
    ensures calls_from_c { ByTheWalkC }
    ensures all_from_c { SumsUpC }
{}
