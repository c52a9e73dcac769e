//! Labels that act alike, in groups, with fewest groups (`refining`).
//! `first_classes` puts together labels that hold the same; in rounds `next_classes` parts those whose rows lead to different classes
//! (`parting`), until nothing changes. `marked_parts` and `marking` say which rows the next round need look at.
#![tactic(auto)]

ghost use Rattle.grouping.specs.Fewest.{GroupsMeet, GroupsCoarsest, GroupsFewest};

mod first_classes;
mod marked_parts;
mod marking;
mod next_classes;
mod parting;
pub mod refining;

/// The groups meet the rule, every grouping that meets it is within them, and none has fewer groups: of every accepted image that 23 does
/// not refuse.
pub fn groups_are_the_fewest()
    ensures meet { GroupsMeet }
    ensures coarsest { GroupsCoarsest }
    ensures fewest { GroupsFewest }
{}
