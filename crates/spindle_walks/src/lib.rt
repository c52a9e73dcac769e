//! Each of four spindles makes the ticks of its own walk, over every list of calls; definitions, and theorems as contracts.
#![tactic(auto)]

ghost use Rattle.spindle_walks.specs.Walks.{OwnWalk};
ghost use Rattle.spindle_walks.specs.Prepared.{PreparedSpin};

/// A spindle that is always handed its chart's image makes the ticks of that chart's walk over the words of its finished ticks, whatever
/// the other spindles are handed meanwhile.
#[tactic(auto, using(crate::proofs::Walks::spindles_tick_as_their_walks))]
pub fn spindles_tick_as_their_walks()
    ensures definitions { OwnWalk }
{}

/// On a table that `prepare` wrote of an image a live call of a spindle is the call on the image, for all states and words.
pub fn prepared_spins_are_spins()
    ensures definitions { PreparedSpin }
{}
