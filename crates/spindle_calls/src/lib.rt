//! Four spindles and their walks, as a caller knows them by the contracts: of calls of the functions and of calls from C, over a list of
//! states; definitions, and theorems as contracts.
#![tactic(auto)]

ghost use Rattle.fairleadow.specs.SpindlesForC.{spin_for, live_spin_for};
ghost use Rattle.spindle_calls.specs.Held.{ListHolds};
ghost use Rattle.spindle_calls.specs.NoPlace.{NoPlaceExactly};
ghost use Rattle.spindle_calls.specs.Delivered.{PlacesDelivered, OwnWalkDelivered};
ghost use Rattle.spindle_calls.specs.ForC.{PlacesCountedC, OwnWalkC};

/// After every list of calls from four fresh states and a record of 4, live calls and rebindings among them, the record is the sum of the
/// depths, 4 and one more for each call made, less what returns and drops gave back, and never more than 64: by what callers have of the
/// functions, and of the calls from C.
#[tactic(auto, using(crate::proofs::ForC::callers_see_places_balance))]
pub fn callers_see_places_balance()
    ensures functions { PlacesDelivered }
    ensures calls_from_c { PlacesCountedC }
{}

/// A spindle whose calls are all handed its chart's image, or a table prepared of it, makes the ticks of that chart's walk over the words
/// of its finished ticks: by what callers have of the functions, and of the calls from C.
#[tactic(auto, using(crate::proofs::ForC::callers_see_own_walks))]
pub fn callers_see_own_walks()
    ensures functions { OwnWalkDelivered }
    ensures calls_from_c { OwnWalkC }
{}

/// Where all that is tried before the tick is passed, a call is refused with 26 exactly where its tick is a call by its code and all 64
/// places are taken.
#[tactic(auto, using(crate::proofs::NoPlace::no_place_is_told_exactly))]
pub fn no_place_is_told_exactly()
    ensures spin { NoPlaceExactly }
{}

/// After a call from C the list that it was lent has the states after it, whatever result bytes it had before.
#[tactic(auto, using(crate::proofs::Held::list_holds_the_states))]
pub fn list_holds_the_states()
    ensures spin { ListHolds spin_for }
    ensures live_spin { ListHolds live_spin_for }
{}
