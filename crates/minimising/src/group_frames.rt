// One frame of the smaller image, written with the numbers of groups.
ghost use Rattle.std.specs.Prelude.{◌≡◌, ◌+◌, ◌-◌, ◌≤◌, ◌<◌, length};
ghost use Rattle.words.specs.lists.Sequences.{written};
ghost use Rattle.text.specs.declared.frames.sizes.TheConstants.{LINE, ROWS};
ghost use Rattle.text.specs.frames.Frame.{size, frame_text};
ghost use Rattle.image.specs.Image.{entry_frame, label_frame, row_frame};
ghost use Rattle.image.specs.Decode.{labels_from, label_in, row_in_frame};
ghost use Rattle.minimising.specs.inner.GroupFrames.{header_piece, row_numbered_by};

use image::byte;
use image::layout::*;
use text::frames::put_frame;
use text::frames::sizes::LABELS;

/// The header, with the number of groups in place of that of labels.
pub fn put_header(out: &mut [u8], schemes: u8, groups: usize, rows: usize, handler: u8)
    requires room { LINE ≤ length out.old }
    requires some_group { 1 ≤ groups }
    requires few_groups { groups ≤ LABELS }
    requires few_rows { rows ≤ ROWS }
    ensures { out.new ≡ written out.old 0 (header_piece schemes groups rows handler) }
{
    let last = (groups - 1) as u8;
    let rows0 = (rows / 256) as u8;
    let rows1 = (rows % 256) as u8;
    let bytes = [HEADER, schemes, last, rows0, rows1, handler, 0, 0, 0, 0];
    put_frame(out, 0, &bytes);
}

/// The entry of a scheme.
pub fn put_entry(out: &mut [u8], at: usize, scheme: u8, label: u8)
    requires { at + LINE ≤ length out.old }
    ensures { out.new ≡ written out.old at (frame_text (entry_frame scheme label)) }
{
    let bytes = [ENTRY, scheme, label, 0, 0, 0, 0, 0, 0, 0];
    put_frame(out, at, &bytes);
}

/// The label in frame f, with another number.
pub fn put_label(table: &[u8], f: usize, number: u8, out: &mut [u8], at: usize)
    requires label_frame { labels_from table.now ≤ f }
    requires inside { f < size table.now }
    requires room { at + LINE ≤ length out.old }
    ensures { out.new ≡ written out.old at
        (frame_text (label_frame number (label_in table.now (f - labels_from table.now)))) }
{
    let kind = byte(table, f, TICK_KIND);
    let called = byte(table, f, CALLED);
    let owner = byte(table, f, OWNER);
    let result = byte(table, f, LABEL_RESULT);
    let mask0 = byte(table, f, LABEL_MASK);
    let mask1 = byte(table, f, LABEL_MASK1);
    let mask2 = byte(table, f, LABEL_MASK2);
    let mask3 = byte(table, f, LABEL_MASK3);
    let bytes = [
        LABEL, number, kind, called, owner, result, mask0, mask1, mask2, mask3,
    ];
    put_frame(out, at, &bytes);
}

/// The row in frame f, led to the groups' numbers.
pub fn put_row(table: &[u8], numbers: &[u8; LABELS], f: usize, out: &mut [u8], at: usize)
    requires inside { f < size table.now }
    requires room { at + LINE ≤ length out.old }
    ensures { out.new ≡ written out.old at
        (frame_text (row_frame (row_numbered_by numbers.now (row_in_frame table.now f)))) }
{
    let from = numbers[byte(table, f, FROM) as usize];
    let next = numbers[byte(table, f, NEXT) as usize];
    let care0 = byte(table, f, CARE);
    let care1 = byte(table, f, CARE1);
    let values0 = byte(table, f, VALUES);
    let values1 = byte(table, f, VALUES1);
    let bit = byte(table, f, FUNCTION_BIT);
    let bytes = [ROW, from, care0, care1, values0, values1, bit, next, 0, 0];
    put_frame(out, at, &bytes);
}
