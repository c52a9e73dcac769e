//! The image with one label a group, and the entry point to it, with refusals 23 and 16 (`joining`, and `minimise` here).
//! `group_numbers` numbers the groups and counts the rows kept; `group_frames` writes one frame with these numbers, `group_pieces` a label
//! or row where it is kept, `group_text` all of them, and `group_image` the image where there is room for it.
#![tactic(auto)]

ghost use Rattle.text.specs.frames.Answer.{GivesBuffer};
ghost use Rattle.minimising.specs.Entry.{minimise};
ghost use Rattle.minimising.specs.group_numbers.Renumbered.{FirstNumbered, EntriesLed, RowsLed};

mod group_frames;
mod group_image;
pub mod group_numbers;
mod group_pieces;
mod group_text;
mod joining;

use crate::joining::minimise_table;
use tables::sources::{Source, Text};
use text::frames::Refusal;
use text::frames::sizes::TABLE;

/// What the image check tries, then 23 and 16; counts characters. A refusal leaves the buffer as it was.
pub fn minimise(image: &[u8], out: &mut [u8]) -> Result<usize, Refusal>
    ensures { GivesBuffer (minimise image.now out.old) result out.new }
{
    let mut room = [0u8; TABLE];
    let table = Text::table(image, &mut room)?;
    minimise_table(table, out)
}

/// Groups are numbered in order of their lowest members, and entries and rows lead to the new labels.
pub fn groups_are_renumbered_in_order()
    ensures first_numbered { FirstNumbered }
    ensures entries_led { EntriesLed }
    ensures rows_led { RowsLed }
{}
