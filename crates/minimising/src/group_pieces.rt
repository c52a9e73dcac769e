// One label or row of the given image, written as a frame of the smaller one where it is kept.
ghost use Rattle.std.specs.Prelude.{◌+◌, ◌≤◌, ◌<◌, length};
ghost use Rattle.text.specs.frames.Frame.{size};
ghost use Rattle.image.specs.Decode.{labels_from, rows_from};
ghost use Rattle.translator.specs.inner.LabelBytes.{Put};
ghost use Rattle.minimising.specs.inner.Pieces.{piece};
ghost use Rattle.minimising.specs.inner.TextContracts.{NumberedGroups};

use crate::group_frames::{put_label, put_row};
use image::layout::FROM;
use image::{byte, labels_from};
use text::frames::sizes::{LABELS, LINE};

/// The label in frame f where it is the lowest of its group, else nothing; answers the offset after it.
pub fn put_kept_label(
    table: &[u8],
    classes: &[u8; LABELS],
    numbers: &[u8; LABELS],
    f: usize,
    out: &mut [u8],
    at: usize,
) -> usize
    requires numbered_groups { NumberedGroups table.now classes.now numbers.now }
    requires label_frame { labels_from table.now ≤ f }
    requires before_rows { f < rows_from table.now }
    requires room { at + length (piece table.now classes.now f) ≤ length out.old }
    ensures { Put out.old at (piece table.now classes.now f) result out.new }
{
    let l = f - labels_from(table);
    if classes[l] as usize != l {
        return at;
    }
    put_label(table, f, numbers[l], out, at);
    at + LINE
}

/// The row in frame f where its label is the lowest of its group, else nothing; answers the offset after it.
pub fn put_kept_row(
    table: &[u8],
    classes: &[u8; LABELS],
    numbers: &[u8; LABELS],
    f: usize,
    out: &mut [u8],
    at: usize,
) -> usize
    requires numbered_groups { NumberedGroups table.now classes.now numbers.now }
    requires row_frame { rows_from table.now ≤ f }
    requires inside { f < size table.now }
    requires room { at + length (piece table.now classes.now f) ≤ length out.old }
    ensures { Put out.old at (piece table.now classes.now f) result out.new }
{
    let from = byte(table, f, FROM) as usize;
    if classes[from] as usize != from {
        return at;
    }
    put_row(table, numbers, f, out, at);
    at + LINE
}
