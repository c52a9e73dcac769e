// Rebindings that take a state and hand one back.
ghost use Rattle.state.specs.Kept.{view};
ghost use Rattle.rebinding.specs.Rebind.{rebind, live_rebind, GivesRebindingOn};

use crate::in_place;
use state::{State, StateReport};
use tables::sources::{Prepared, Text};
use text::frames::sizes::TABLE;

/// The state with number `number` served by scheme `scheme` from then on; refused, the state as it was. Refused is what the image check
/// refuses, then 15 and 22.
#[tactic(auto, using(crate::proofs::Sourced::sourced))]
pub fn rebind(image: &[u8], mut state: State, number: usize, scheme: usize) -> StateReport
    ensures { GivesRebindingOn (rebind image.now (view state) number scheme) state
        result.answer result.state }
{
    let answer = in_place::rebind::<Text, TABLE>(image, &mut state, number, scheme);
    StateReport { answer, state }
}

/// The same on a prepared table: 11, then 15 and 22.
#[tactic(auto, using(crate::proofs::Sourced::sourced))]
pub fn live_rebind(table: &[u8], mut state: State, number: usize, scheme: usize) -> StateReport
    ensures { GivesRebindingOn (live_rebind table.now (view state) number scheme) state
        result.answer result.state }
{
    let answer = in_place::rebind::<Prepared, 0>(table, &mut state, number, scheme);
    StateReport { answer, state }
}
