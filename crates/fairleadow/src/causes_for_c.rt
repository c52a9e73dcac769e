// The calls from C that tell what made a tick go on, and what a tick code stands for.
ghost use Rattle.std.specs.Prelude.{◌≡◌};
ghost use Rattle.state.specs.State.{Sized};
ghost use Rattle.state.specs.Kept.{view};
ghost use Rattle.fairleadow.specs.AnswersForC.{GivesReplyC};
ghost use Rattle.fairleadow.specs.CausesForC.{cause_for};
ghost use Rattle.fairleadow.specs.Meant.{Meant};

use crate::telling::tell;
use cause::explaining::cause_of;
use image::layout::*;
use state::State;
use ticks::codes::{DROP, Meaning, UNKNOWN, meaning_of};

// The arrays of a state are as long as its type says; of one that is lent the caller learns it so.
fn sized(state: State)
    ensures { Sized (view state) }
{}

/// Tells what makes the tick of a state by a word go where it goes, and makes no tick: writes the row's number, the conditions that
/// decide it and the result bit, each 0 with a refusal. Refuses as the image check does, then with 15, 21 and 18.
#[unsafe(no_mangle)]
pub extern "C" fn fairleadow_cause(
    image: &[u8],
    state: &State,
    word: u16,
    row: &mut u16,
    mask: &mut u16,
    bit: &mut u8,
    at: &mut usize,
    made: &mut usize,
) -> u8
    ensures told { GivesReplyC (cause_for image.now state.now word).reply result at.new made.new }
    ensures row { row.new ≡ (cause_for image.now state.now word).cause.row }
    ensures mask { mask.new ≡ (cause_for image.now state.now word).cause.mask }
    ensures bit { bit.new ≡ (cause_for image.now state.now word).cause.bit }
    ensures sized { Sized (view state.now) }
{
    sized(*state);
    match cause_of(image, state, word) {
        Ok(cause) => {
            *row = cause.row;
            *mask = cause.mask;
            *bit = cause.bit;
            tell(Ok(0), at, made)
        }
        Err(refusal) => {
            *row = 0;
            *mask = 0;
            *bit = 0;
            tell(Err(refusal), at, made)
        }
    }
}

/// What a code stands for: returns the tick kind, 5 for a drop, 255 for a code that no tick has, and writes the number called, 2 to 16,
/// or 0 for none.
#[unsafe(no_mangle)]
pub extern "C" fn fairleadow_meaning(code: u8, called: &mut u8) -> u8
    ensures { Meant code result called.new }
{
    *called = 0;
    match meaning_of(code) {
        Meaning::Plain => PLAIN,
        Meaning::OperationCall(scheme) => {
            *called = scheme;
            OPERATION_CALL
        }
        Meaning::FunctionCall(scheme) => {
            *called = scheme;
            FUNCTION_CALL
        }
        Meaning::Return => RETURN,
        Meaning::Home => HOME,
        Meaning::Drop => DROP,
        Meaning::Unknown => UNKNOWN,
    }
}
