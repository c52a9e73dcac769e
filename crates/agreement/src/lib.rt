//! The agreement of machine and walk, as one statement over a whole list of runs and rebindings, and its proof. Each theorem of the crate
//! is a clause of a function here that does nothing: a law that is changed or taken away no longer proves it. What ties
//! the theorems to the functions' own contracts stays laws (proofs/Contracts, proofs/DryRunContracts, proofs/Asks).
#![tactic(auto)]

ghost use Rattle.std.specs.Prelude.{ℕ, List};
ghost use Rattle.translator.specs.Entry.{translate};
ghost use Rattle.state.specs.State.{fresh_state};
ghost use Rattle.runs.specs.Run.{run};
ghost use Rattle.rebinding.specs.Rebind.{rebind};
ghost use Rattle.agreement.specs.Agreement.{Agreement};
ghost use Rattle.agreement.specs.Calls.{Delivered};
ghost use Rattle.agreement.specs.ForC.{DeliveredC};
ghost use Rattle.agreement.specs.Unswapped.{RunAgreement, AgreementAlone};
ghost use Rattle.agreement.specs.RunsAlone.{DeliveredAlone, RunsDelivered, DeliveredAloneC, RunsDeliveredC};
ghost use Rattle.agreement.specs.DryRuns.{DryRunByWalk, DryRunByWalkC};
ghost use Rattle.agreement.specs.LiveCalls.{PreparedActs};
ghost use Rattle.agreement.specs.OneRow.{OneRowMatches, AnyRuleTicks, CareDecides};
ghost use Rattle.agreement.specs.Told.{CauseTold, CauseToldC, RowsListed, RowsListedC};
ghost use Rattle.agreement.specs.Success.{TranslateSucceeds, PrepareSucceeds, MinimiseSucceeds, LittleChartSucceeds};
ghost use Rattle.agreement.specs.Success.{ListSucceeds, CauseSucceeds, CountsSucceed};
ghost use Rattle.agreement.specs.Capitals.{AsInCapitals};
ghost use Rattle.agreement.specs.FullCalls.{HandlerFirst};

/// The machine ticks as the walk ticks, over every list of runs and rebindings on the image of every chart that translates: of the
/// definitions; of calls of the functions, live ones and ticks among them, each known by its contract alone; and of calls from C.
#[tactic(auto, using(crate::proofs::Theorems::machine_ticks_as_walk))]
pub fn machine_ticks_as_walk()
    ensures definitions { Agreement translate fresh_state run rebind }
    ensures functions { Delivered }
    ensures calls_from_c { DeliveredC }
{}

/// With no rebinding in the list it does so by the walk of words alone: of the definitions, and of any four functions that agree; of
/// runs, ticks and live calls in any mixture; of runs on the image's text; and of both from C.
#[tactic(auto, using(crate::proofs::Theorems::runs_tick_as_walk))]
pub fn runs_tick_as_walk()
    ensures definitions { RunAgreement translate fresh_state run }
    ensures any_definitions { AgreementAlone }
    ensures mixtures { DeliveredAlone }
    ensures functions { RunsDelivered }
    ensures mixtures_from_c { DeliveredAloneC }
    ensures calls_from_c { RunsDeliveredC }
{}

/// A dry run of a chart that translates, on 1 to 32 places, hands back what the walk over its words gives: of the function, known by its
/// contract alone, and from C.
#[tactic(auto, using(crate::proofs::Theorems::dry_runs_tick_as_walk))]
pub fn dry_runs_tick_as_walk()
    ensures functions { DryRunByWalk }
    ensures calls_from_c { DryRunByWalkC }
{}

/// On a table that `prepare` wrote, a live run is the run on the image's text, a live tick the tick and a live rebinding the rebinding,
/// from every state.
#[tactic(auto, using(crate::proofs::Theorems::live_calls_act_as_on_text))]
pub fn live_calls_act_as_on_text()
    ensures prepared { PreparedActs }
{}

/// On the image of a chart, as `translate` wrote it, exactly one row matches each label from 2 up, word and bit; by every rule that takes a
/// row that matches, the machine makes the same ticks; and the care mask alone of the row that a cause names decides it.
#[tactic(auto, using(crate::proofs::Theorems::translated_image_has_one_row))]
pub fn translated_image_has_one_row()
    ensures one_row { OneRowMatches }
    ensures any_rule { AnyRuleTicks }
    ensures care_mask { CareDecides }
{}

/// With success, a cause that is told explains the tick, and two buffers of rows listed hold the rows of each label: of the functions, and
/// from C.
#[tactic(auto, using(crate::proofs::Theorems::causes_and_rows_are_told))]
pub fn causes_and_rows_are_told()
    ensures causes { CauseTold }
    ensures causes_from_c { CauseToldC }
    ensures rows { RowsListed }
    ensures rows_from_c { RowsListedC }
{}

/// A call that tells C the number 0 has succeeded, since no refusal has it: of translations, preparations, joined images, little charts,
/// listings, causes and counts of full stacks.
#[tactic(auto, using(crate::proofs::Theorems::number_0_is_success))]
pub fn number_0_is_success()
    ensures translations { TranslateSucceeds }
    ensures preparations { PrepareSucceeds }
    ensures joined_images { MinimiseSucceeds }
    ensures little_charts { LittleChartSucceeds }
    ensures listings { ListSucceeds }
    ensures causes { CauseSucceeds }
    ensures counts { CountsSucceed }
{}

/// For each text, refused or not, each entry point does what it does for the text in capitals.
pub fn small_letters_are_capitals()
    ensures every_text { (t : List ℕ) → AsInCapitals t }
{}

/// A call that is made with as many schemes open as there are places, at which the ticks that are compared end, is one with the handler
/// first of them, where there is a handler.
#[tactic(auto, using(crate::proofs::Theorems::full_calls_have_the_handler_first))]
pub fn full_calls_have_the_handler_first()
    ensures every_scheme { HandlerFirst }
{}
