//! A rebinding between ticks: a number is served by another scheme from then on. `rebindable` tries it (22); it is made by value
//! (`by_value`) or in place (`in_place`), on an image or live on a prepared table.
#![tactic(auto)]

ghost use Rattle.rebinding.specs.Laws.{LiveRebindIs, RebindFits};

mod by_value;
pub mod in_place;
mod rebindable;

pub use by_value::{live_rebind, rebind};

/// A live rebinding on a prepared table is the rebinding on the image that it was prepared from, and a rebinding leaves a fitting state
/// fitting, on every accepted image.
pub fn rebindings_keep_a_state_fitting_live_too()
    ensures live { LiveRebindIs }
    ensures fits { RebindFits }
{}
