//! With as many places as a chart needs, and each number served by its own scheme, no call finds the stack full; definitions, and theorems
//! as contracts.
#![tactic(auto)]

ghost use Rattle.enough.specs.Enough.{Enough, EnoughC};
ghost use Rattle.enough.specs.Smaller.{Smaller};

/// With as many places as a chart needs, 1 to 32, and each number served by its own scheme, no call of any list from a fresh state gets 17
/// or makes a drop: calls of the functions, and calls from C.
#[tactic(auto, using(crate::proofs::Enough::enough_places_never_fill))]
pub fn enough_places_never_fill()
    ensures functions { Enough }
    ensures calls_from_c { EnoughC }
{}

/// Fewer places may do: a chart that needs two by its calls makes every tick with one, whatever the words and the rebindings.
#[tactic(auto, using(crate::proofs::Smaller::smaller))]
pub fn fewer_places_may_do()
    ensures one_for_two { Smaller }
{}
