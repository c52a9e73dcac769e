//! One tick of the stack machine, on a prepared table and a state, in place, by the label at the top (`stepping`).
//! `calls` makes the tick of a call, `full_stack` that of a call with no free place: a drop or 17; `returns` makes that of a return.
//! `leaving` tells the label whose row a tick takes.
//! `codes` has the tick codes. In the laws a tick on an accepted image leaves a fitting state fitting.
#![tactic(auto)]

ghost use Rattle.std.specs.Prelude.{◌≡◌};
ghost use Rattle.state.specs.Kept.{view};
ghost use Rattle.ticks.specs.Functions.{CallClears, Drops, ZeroRow, FreshFits, TickFits};
ghost use Rattle.ticks.specs.codes.CodesApart.{CodeMeans, CodesApart, DropMeans, DropApart, KindBack, MeaningCoded};
ghost use Rattle.ticks.specs.inner.TickContracts.{bit_of};

mod calls;
pub mod codes;
mod full_stack;
pub mod leaving;
mod returns;
pub mod stepping;

use image::layout::{FUNCTION_CALL, NO_BIT};
use state::State;

/// What stops a tick, and then nothing is changed: the stack is full, or no row matches.
#[derive(Clone, Copy)]
pub enum Stop {
    Full,
    NoRow,
}

/// What a finished tick gives: the mask that it emits and its code.
#[derive(Clone, Copy)]
pub struct Tick {
    pub mask: u32,
    pub code: u8,
}

/// How a tick ends, in one enum for the loop of a run: finished, with the mask that it emits, its code and the label at the top after it,
/// which the next tick need not read again, or stopped. The three stand side by side: as a struct the compiler moves mask and code as one
/// number.
#[derive(Clone, Copy)]
pub enum TickEnd {
    Finished { mask: u32, code: u8, label: u8 },
    Full,
    NoRow,
}

/// The bit that decides among the rows of a label: the result of the number that it calls, where it is a function's, else 2.
pub fn bit_of(state: &State, kind: u8, called: u8) -> u8
    ensures { result ≡ bit_of kind called (view state.now).bits }
{
    if kind == FUNCTION_CALL {
        return state.result_of(called) as u8;
    }
    NO_BIT
}

/// A call clears the bit of the number called and a drop that of the handler alone, and a function takes its row for bit 0 where nothing
/// wrote 1 between its call and its return.
pub fn calls_clear_result_bits()
    ensures call_clears { CallClears }
    ensures drops { Drops }
    ensures zero_row { ZeroRow }
{}

/// A fresh state fits every accepted image, and every finished tick leaves a fitting state fitting.
pub fn ticks_keep_a_state_fitting()
    ensures fresh { FreshFits }
    ensures tick { TickFits }
{}

/// Tick codes stand for their ticks: no two ticks share a code.
pub fn no_two_ticks_share_a_code()
    ensures code_means { CodeMeans }
    ensures codes_apart { CodesApart }
    ensures drop_means { DropMeans }
    ensures drop_apart { DropApart }
    ensures kind_back { KindBack }
    ensures meaning_coded { MeaningCoded }
{}
