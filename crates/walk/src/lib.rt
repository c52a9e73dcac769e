//! The walk: what a chart does, defined by recursion over the chart alone; definitions and laws, with what they say as contracts.
#![tactic(auto)]

ghost use Rattle.walk.specs.Functions.{ZeroArc};
ghost use Rattle.walk.specs.Simpler.{TickAWord, OwnBinding, NoHandler, AnyPlaces};

/// A function takes its 0 arc where nothing wrote 1 to the bit of the number called between its call and its return.
pub fn functions_take_their_zero_arc()
    ensures zero_arc { ZeroArc }
{}

/// Each word makes one tick.
pub fn each_word_makes_one_tick()
    ensures ticks { TickAWord }
{}

/// With no rebinding and no handler the walk is the walk of before there were any.
pub fn the_walk_is_a_simpler_one()
    ensures own_binding { OwnBinding }
    ensures no_handler { NoHandler }
    ensures any_places { AnyPlaces }
{}
