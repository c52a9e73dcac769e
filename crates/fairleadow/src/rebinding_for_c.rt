// The calls from C that have a number served by another scheme, on an image and live on a prepared table.
ghost use Rattle.std.specs.Prelude.{◌≡◌, if◌then◌else◌, ◌==◌};
ghost use Rattle.text.specs.frames.Answer.{reply_number};
ghost use Rattle.state.specs.Kept.{stored};
ghost use Rattle.fairleadow.specs.AnswersForC.{GivesReplyC};
ghost use Rattle.fairleadow.specs.RebindingForC.{rebind_for, live_rebind_for};

use crate::telling::tell;
use rebinding::in_place;
use state::State;
use tables::sources::{Prepared, Text};
use text::frames::sizes::TABLE;

/// Has number `number` served by scheme `scheme` from then on; a refusal writes no state. Refuses as the image check does, then with 15
/// and 22; counts 0.
#[tactic(auto, using(rebinding::proofs::Sourced::sourced))]
#[unsafe(no_mangle)]
pub extern "C" fn fairleadow_rebind(
    image: &[u8],
    state: &mut State,
    number: usize,
    scheme: usize,
    at: &mut usize,
    made: &mut usize,
) -> u8
    ensures told { GivesReplyC (rebind_for image.now state.old number scheme).reply result at.new made.new }
    ensures state { state.new ≡ (if reply_number (rebind_for image.now state.old number scheme).reply == 0
        then stored (rebind_for image.now state.old number scheme).state else state.old) }
{
    let answer = in_place::rebind::<Text, TABLE>(image, state, number, scheme);
    tell(answer, at, made)
}

/// The same on a prepared table. Refuses with 11, 15 and 22.
#[tactic(auto, using(rebinding::proofs::Sourced::sourced))]
#[unsafe(no_mangle)]
pub extern "C" fn fairleadow_live_rebind(
    table: &[u8],
    state: &mut State,
    number: usize,
    scheme: usize,
    at: &mut usize,
    made: &mut usize,
) -> u8
    ensures told { GivesReplyC (live_rebind_for table.now state.old number scheme).reply result at.new made.new }
    ensures state { state.new ≡ (if reply_number (live_rebind_for table.now state.old number scheme).reply == 0
        then stored (live_rebind_for table.now state.old number scheme).state else state.old) }
{
    let answer = in_place::rebind::<Prepared, 0>(table, state, number, scheme);
    tell(answer, at, made)
}
