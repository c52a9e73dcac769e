//! Ticks, runs and rebindings on the image with one label a group are those on the given image, and for a chart those of its walk;
//! definitions, and theorems as contracts.
#![tactic(auto)]

ghost use Rattle.translator.specs.Entry.{translate};
ghost use Rattle.state.specs.State.{fresh_state};
ghost use Rattle.runs.specs.Run.{run};
ghost use Rattle.rebinding.specs.Rebind.{rebind};
ghost use Rattle.minimising.specs.Entry.{minimise};
ghost use Rattle.minimised.specs.Alike.{StillFits, TicksAlike, FindsRow, RunsAlike, RebindsAlike};
ghost use Rattle.minimised.specs.Demand.{NeverUneven, SmallerMade, SmallerAgreement};
ghost use Rattle.minimised.specs.Delivered.{SmallerDelivered, SmallerDeliveredC};

/// Of every image that nothing but 16 refuses to make smaller, and every state that fits it: with its labels renumbered the state fits the
/// smaller image, where each tick, run and rebinding is as on the given one, renumbered. No tick gets 18.
#[tactic(auto, using(crate::proofs::Accepted::joined_images_tick_alike))]
pub fn joined_images_tick_alike()
    ensures state { StillFits }
    ensures ticks { TicksAlike }
    ensures never_18 { FindsRow }
    ensures runs { RunsAlike }
    ensures rebindings { RebindsAlike }
{}

/// The image of every chart that translates can be made smaller: 23 does not refuse it, and room for the given image is enough.
#[tactic(auto, using(crate::proofs::Charts::chart_images_are_joined))]
pub fn chart_images_are_joined()
    ensures never_23 { NeverUneven }
    ensures room { SmallerMade translate minimise }
{}

/// On the smaller image of a chart the machine ticks as the chart's walk: of the definitions, of calls of the functions, and of calls from
/// C.
#[tactic(auto, using(crate::proofs::Delivered::joined_images_tick_as_walks))]
pub fn joined_images_tick_as_walks()
    ensures definitions { SmallerAgreement translate minimise fresh_state run rebind }
    ensures functions { SmallerDelivered }
    ensures calls_from_c { SmallerDeliveredC }
{}
