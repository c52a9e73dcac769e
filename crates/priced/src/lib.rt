//! The agreement with priced runs in the list: a priced run costs what its ticks of the walk do; definitions, and theorems as contracts.
#![tactic(auto)]

ghost use Rattle.translator.specs.Entry.{translate};
ghost use Rattle.state.specs.State.{fresh_state};
ghost use Rattle.runs.specs.Run.{run};
ghost use Rattle.rebinding.specs.Rebind.{rebind};
ghost use Rattle.prices.specs.priced_runs.PricedRun.{priced_run};
ghost use Rattle.priced.specs.Demand.{PricedAgreement};
ghost use Rattle.priced.specs.FreshRun.{PricedByTheWalk};
ghost use Rattle.priced.specs.Delivered.{PricedDelivered};
ghost use Rattle.priced.specs.ForC.{PricedDeliveredC};

/// Over any list of runs, rebindings and priced runs on the image of a chart, each priced run costs what its ticks of the walk cost, and
/// all else agrees as without prices: of the definitions, of calls of the functions, and of calls from C.
#[tactic(auto, using(crate::proofs::ForC::priced_runs_cost_as_walks))]
pub fn priced_runs_cost_as_walks()
    ensures definitions { PricedAgreement translate fresh_state priced_run run rebind }
    ensures functions { PricedDelivered }
    ensures calls_from_c { PricedDeliveredC }
{}

/// A priced run from a fresh state, on the image of a chart, costs what as many ticks of the walk cost as its answer counts, whatever its
/// words and its room.
#[tactic(auto, using(crate::proofs::Charts::fresh_run_costs_as_walk))]
pub fn fresh_run_costs_as_walk()
    ensures price { PricedByTheWalk }
{}
