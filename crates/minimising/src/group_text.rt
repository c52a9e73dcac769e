// The smaller image, written frame by frame of the given one.
ghost use Rattle.std.specs.Prelude.{◌≡◌, ◌+◌, ◌≤◌, ◌<◌, length};
ghost use Rattle.words.specs.lists.Sequences.{written};
ghost use Rattle.text.specs.declared.frames.sizes.TheConstants.{ROWS};
ghost use Rattle.text.specs.frames.Frame.{size};
ghost use Rattle.translator.specs.inner.LabelBytes.{Put};
ghost use Rattle.minimising.specs.inner.Pieces.{groups_in, rows_kept, piece, all_pieces};
ghost use Rattle.minimising.specs.inner.TextContracts.{NumberedGroups};

use crate::group_frames::{put_entry, put_header};
use crate::group_pieces::{put_kept_label, put_kept_row};
use image::layout::*;
use image::{byte, labels_from, rows_from};
use text::frames::sizes::{FRAME, LABELS, LINE};

// The piece of a frame after the header, and the offset after it.
fn put_piece(
    table: &[u8],
    classes: &[u8; LABELS],
    numbers: &[u8; LABELS],
    f: usize,
    out: &mut [u8],
    at: usize,
) -> usize
    requires numbered_groups { NumberedGroups table.now classes.now numbers.now }
    requires after_header { 1 ≤ f }
    requires inside { f < size table.now }
    requires room { at + length (piece table.now classes.now f) ≤ length out.old }
    ensures { Put out.old at (piece table.now classes.now f) result out.new }
{
    if f < labels_from(table) {
        let entry = byte(table, f, ENTRY_LABEL) as usize;
        put_entry(out, at, f as u8, numbers[entry]);
        return at + LINE;
    }
    if f < rows_from(table) {
        return put_kept_label(table, classes, numbers, f, out, at);
    }
    put_kept_row(table, classes, numbers, f, out, at)
}

/// The header, and after it the pieces of all frames.
pub fn put_pieces(
    table: &[u8],
    classes: &[u8; LABELS],
    numbers: &[u8; LABELS],
    groups: usize,
    rows: usize,
    out: &mut [u8],
)
    requires numbered_groups { NumberedGroups table.now classes.now numbers.now }
    requires groups_counted { groups ≡ groups_in table.now classes.now }
    requires rows_counted { rows ≡ rows_kept table.now classes.now }
    requires some_group { 1 ≤ groups }
    requires few_groups { groups ≤ LABELS }
    requires few_rows { rows ≤ ROWS }
    requires room { length (all_pieces table.now classes.now) ≤ length out.old }
    ensures { out.new ≡ written out.old 0 (all_pieces table.now classes.now) }
{
    let n = table.len() / FRAME;
    let schemes = byte(table, 0, SCHEME_COUNT);
    let handler = byte(table, 0, HANDLER);
    put_header(out, schemes, groups, rows, handler);
    let mut place: usize = LINE;
    for f in 1..n {
        place = put_piece(table, classes, numbers, f, out, place);
    }
}
