//! Four spindles that share 64 places: a call ticks one, or is refused, and leaves the others as they are.
//! Here are its report and what it tries of the record; `turning` makes the turn of one state, `spindle_list` that of one in a list. By the
//! theorem of `spindle_places` the record is what calls took and did not give back, 64 at most.
#![tactic(auto)]

pub mod layout;
pub mod spindle_list;
pub mod spindle_places;
mod turning;

ghost use Rattle.std.specs.Prelude.{◌≡◌};
ghost use Rattle.spindles.specs.Spindles.{is_none_left, spin, live_spin};
ghost use Rattle.spindles.specs.Laws.{RefusedLeaves, FullFirst, LevelGoes, OthersLeft, OnlyDepths};
ghost use Rattle.spindles.specs.inner.Parts.{is_bad_record};

use layout::STORE;
use text::frames::Refusal;
use ticks::Tick;

/// What a call answers, and the places recorded as taken after it: with a refusal as many as before.
#[derive(Drop)]
pub struct SpinReport {
    pub answer: Result<Tick, Refusal>,
    pub taken: usize,
}

/// Whether the depths do not sum to the record, or it is above 64.
pub fn bad_record(sum: usize, taken: usize) -> bool
    ensures { result ≡ is_bad_record sum taken }
{
    sum != taken || STORE < taken
}

/// Whether a tick ended deeper than it began, and no place is left.
pub fn none_left(before: usize, after: usize, taken: usize) -> bool
    ensures { result ≡ is_none_left before after taken }
{
    before < after && STORE <= taken
}

/// A call leaves the other three states as they are, and reads no more of them than their depths; on an image and live.
pub fn spins_leave_the_others()
    ensures left { OthersLeft spin }
    ensures left_live { OthersLeft live_spin }
    ensures depths { OnlyDepths spin }
    ensures depths_live { OnlyDepths live_spin }
{}

/// A call that is refused changes no state and no record and has no mask and no code; on an image and live.
pub fn refused_spins_change_nothing()
    ensures spin { RefusedLeaves spin }
    ensures live_spin { RefusedLeaves live_spin }
{}

/// 17 is given before 26, and a tick that ends no deeper than it began, a drop or a return among them, goes ahead where no place is free.
pub fn places_are_tried_last()
    ensures full_first { FullFirst }
    ensures level_goes { LevelGoes }
{}
