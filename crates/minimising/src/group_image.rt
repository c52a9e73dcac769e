// The smaller image of labels that are grouped: written where there is room for all of it.
ghost use Rattle.text.specs.frames.Verdict.{fine};
ghost use Rattle.text.specs.frames.Answer.{GivesBuffer};
ghost use Rattle.minimising.specs.inner.WriteContracts.{Grouped, smaller_outcome};

use crate::group_numbers::{count_kept, number_groups};
use crate::group_text::put_pieces;
use image::layout::{LAST_LABEL, SCHEME_COUNT};
use image::{byte, rows_from};
use state::State;
use text::frames::Refusal;
use text::frames::sizes::*;

/// Refusal 16, else all of the smaller image is written; counts characters.
pub fn write_groups(table: &[u8], classes: &[u8; LABELS], out: &mut [u8]) -> Result<usize, Refusal>
    requires { Grouped table.now classes.now }
    ensures { GivesBuffer (smaller_outcome table.now fine out.old) result out.new }
{
    let schemes = byte(table, 0, SCHEME_COUNT) as usize;
    let last = byte(table, 0, LAST_LABEL) as usize;
    let mut numbers = [0u8; State::LABELS];
    let groups = number_groups(classes, &mut numbers, last + 1);
    let rows = count_kept(table, classes, rows_from(table), table.len() / FRAME);
    let need = LINE * (1 + schemes + groups + rows);
    if out.len() < need {
        return Err(Refusal::NoRoom);
    }
    put_pieces(table, classes, &numbers, groups, rows, out);
    Ok(need)
}
