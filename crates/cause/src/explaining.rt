// The entry point to what made a tick go on, over an image and a state.
ghost use Rattle.state.specs.Kept.{view};
ghost use Rattle.cause.specs.Cause.{explain, GivesCause};

use crate::Cause;
use crate::table_causes::cause_table;
use state::State;
use tables::sources::{Source, Text};
use text::frames::Refusal;
use text::frames::sizes::TABLE;

/// What makes the tick of a state by a word go where it goes, on an image; no tick is made. Refused is what the image check refuses,
/// then an unfit state (15), a tick that takes no row (21), and a word that no row matches (18).
pub fn cause_of(image: &[u8], state: &State, word: u16) -> Result<Cause, Refusal>
    ensures { GivesCause (explain image.now (view state.now) word) result }
{
    let mut room = [0u8; TABLE];
    let table = Text::table(image, &mut room)?;
    cause_table(&table, *state, word)
}
