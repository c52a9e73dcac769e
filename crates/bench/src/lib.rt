//! The bench sheet, the numbers of the paper, a case for each refusal and of what the programs print, and wrong functions, each shown
//! not to meet what is promised; definitions and theorems, with what they say as contracts.
#![tactic(auto)]

ghost use Rattle.bench.specs.Bench.{BenchSheet};
ghost use Rattle.bench.specs.RefusalCases.{RefusalCases};
ghost use Rattle.bench.specs.Handler.{HandlerCases};
ghost use Rattle.bench.specs.Patched.{PatchedCases};
ghost use Rattle.bench.specs.Causes.{CauseCases, RowCauses, AnswerCauses};
ghost use Rattle.bench.specs.LooseMask.{LooseMask};
ghost use Rattle.bench.specs.Listing.{ListingCases};
ghost use Rattle.bench.specs.Swap.{ByteCases, SwapCases, RebindingCases, FitnessCases, WalkedCases};
ghost use Rattle.bench.specs.Chains.{ChainCases};
ghost use Rattle.bench.specs.Joins.{GroupCases, EvenCases};
ghost use Rattle.bench.specs.Minimise.{MinimiseCases};
ghost use Rattle.bench.specs.Little.{LittleCases};
ghost use Rattle.bench.specs.Spindles.{SpindleCases};
ghost use Rattle.bench.specs.Prices.{PriceCases};
ghost use Rattle.bench.specs.Fillings.{FillingCases};
ghost use Rattle.bench.specs.Live.{LiveCases};
ghost use Rattle.bench.specs.Outputs.{PrintedCases};
ghost use Rattle.bench.specs.DryRuns.{DryRunCases};
ghost use Rattle.bench.specs.Sums.{SumCases};
ghost use Rattle.bench.specs.Numbers.{RefusalNumbers, TickCodes, Meanings, Sizes, NodeLayout, ImageLayout, StackSizes};
ghost use Rattle.bench.specs.Idlers.{TurnsBackFails, OneImageFails, AlwaysFullFails, AlwaysHomeFails, PlainAfterCallFails};
ghost use Rattle.bench.specs.Idlers.{StaysInHandlerFails, HomeAfterDropFails, WritesNothingFails, KeepsStateFails};
ghost use Rattle.bench.specs.Idlers.{MiscountsFails, OnlyThese};
ghost use Rattle.bench.specs.Slips.{CallsAgainFails, ReadsAtCallFails, ChoosesByCallFails, KeepsBitFails};
ghost use Rattle.bench.specs.Slips.{ReturnsHomeFails, RefusesEarlyFails, JoinsRowsFails};
ghost use Rattle.bench.specs.HandlerSlips.{NeverDropsFails, DropsEarlyFails, DropsAgainFails, CountsZeroFails, HeedsCalledFails};
ghost use Rattle.bench.specs.HandlerSlips.{KeepsBeneathFails, ReturnsToCallerFails, TakesRowFails, LeavesPlacesFails};
ghost use Rattle.bench.specs.HandlerSlips.{ClearsCalledFails, KeepsHandlerBitFails, ForgetsResultFails, ClearsFirstFails};
ghost use Rattle.bench.specs.SwapSlips.{ActsLaterFails, KeepsBindingFails, RebindsHandlerFails, WritesByServerFails};
ghost use Rattle.bench.specs.SwapSlips.{ReadsByServerFails, KeptByServerFails, ShowsServerFails};
ghost use Rattle.bench.specs.SwapSlips.{CountsAtReturnFails, SwapsOpenFails, BindsRefusedFails};
ghost use Rattle.bench.specs.RowSlips.{FirstMatchFails, LastMatchFails, FirstOfEqualsFails, OnesOfValuesFails, CountsBitFails};
ghost use Rattle.bench.specs.RowSlips.{FormerTick};

/// The constants of the code are the numbers of the paper, each written out.
pub fn constants_are_the_numbers_of_the_paper()
    ensures refusals { RefusalNumbers }
    ensures codes { TickCodes }
    ensures meanings { Meanings }
    ensures sizes { Sizes }
    ensures node_layout { NodeLayout }
    ensures image_layout { ImageLayout }
    ensures stack_sizes { StackSizes }
{}

/// What the bench sheet says, and cases of each request, computed on the definitions.
#[tactic(auto, using(crate::proofs::Cases::the_bench_sheet_holds))]
pub fn the_bench_sheet_holds()
    ensures bench_sheet { BenchSheet }
    ensures refusals { RefusalCases }
    ensures handler { HandlerCases }
    ensures patched { PatchedCases }
    ensures causes { CauseCases }
    ensures row_causes { RowCauses }
    ensures answer_causes { AnswerCauses }
    ensures loose_mask { LooseMask }
    ensures listing { ListingCases }
    ensures bytes { ByteCases }
    ensures swaps { SwapCases }
    ensures rebindings { RebindingCases }
    ensures fitness { FitnessCases }
    ensures walked { WalkedCases }
    ensures chains { ChainCases }
    ensures groups { GroupCases }
    ensures even { EvenCases }
    ensures minimised { MinimiseCases }
    ensures little { LittleCases }
    ensures spindles { SpindleCases }
    ensures prices { PriceCases }
    ensures fillings { FillingCases }
    ensures live { LiveCases }
    ensures printed { PrintedCases }
    ensures dry_runs { DryRunCases }
    ensures sums { SumCases }
{}

/// No function that does too little meets the translator's equation or the agreement, and whatever meets the agreement does what the
/// definitions do.
#[tactic(auto, using(crate::proofs::Idlers::no_idler_meets_what_is_promised))]
pub fn no_idler_meets_what_is_promised()
    ensures turns_back_fails { TurnsBackFails }
    ensures one_image_fails { OneImageFails }
    ensures always_full_fails { AlwaysFullFails }
    ensures always_home_fails { AlwaysHomeFails }
    ensures plain_after_call_fails { PlainAfterCallFails }
    ensures stays_in_handler_fails { StaysInHandlerFails }
    ensures home_after_drop_fails { HomeAfterDropFails }
    ensures writes_nothing_fails { WritesNothingFails }
    ensures keeps_state_fails { KeepsStateFails }
    ensures miscounts_fails { MiscountsFails }
    ensures only_these { OnlyThese }
{}

/// No slip of the bench sheet, of a drop, of a rebinding or of the choice of a row meets what is promised. That the first row that matches
/// is taken shows on a patched image alone: on one that was translated it makes the machine's ticks.
#[tactic(auto, using(crate::proofs::Slips::slips, crate::proofs::HandlerSlips::handler_slips, crate::proofs::SwapSlips::swap_slips, crate::proofs::RowSlips::row_slips))]
pub fn no_slip_meets_what_is_promised()
    ensures calls_again_fails { CallsAgainFails }
    ensures reads_at_call_fails { ReadsAtCallFails }
    ensures chooses_by_call_fails { ChoosesByCallFails }
    ensures keeps_bit_fails { KeepsBitFails }
    ensures returns_home_fails { ReturnsHomeFails }
    ensures refuses_early_fails { RefusesEarlyFails }
    ensures joins_rows_fails { JoinsRowsFails }
    ensures never_drops_fails { NeverDropsFails }
    ensures drops_early_fails { DropsEarlyFails }
    ensures drops_again_fails { DropsAgainFails }
    ensures counts_zero_fails { CountsZeroFails }
    ensures heeds_called_fails { HeedsCalledFails }
    ensures keeps_beneath_fails { KeepsBeneathFails }
    ensures returns_to_caller_fails { ReturnsToCallerFails }
    ensures takes_row_fails { TakesRowFails }
    ensures leaves_places_fails { LeavesPlacesFails }
    ensures clears_called_fails { ClearsCalledFails }
    ensures keeps_handler_bit_fails { KeepsHandlerBitFails }
    ensures forgets_result_fails { ForgetsResultFails }
    ensures clears_first_fails { ClearsFirstFails }
    ensures acts_later_fails { ActsLaterFails }
    ensures keeps_binding_fails { KeepsBindingFails }
    ensures rebinds_handler_fails { RebindsHandlerFails }
    ensures writes_by_server_fails { WritesByServerFails }
    ensures reads_by_server_fails { ReadsByServerFails }
    ensures kept_by_server_fails { KeptByServerFails }
    ensures shows_server_fails { ShowsServerFails }
    ensures counts_at_return_fails { CountsAtReturnFails }
    ensures swaps_open_fails { SwapsOpenFails }
    ensures binds_refused_fails { BindsRefusedFails }
    ensures first_match_fails { FirstMatchFails }
    ensures last_match_fails { LastMatchFails }
    ensures first_of_equals_fails { FirstOfEqualsFails }
    ensures ones_of_values_fails { OnesOfValuesFails }
    ensures counts_bit_fails { CountsBitFails }
    ensures former_tick { FormerTick }
{}
