// What refusal 13 tries of one entry, label or row of a decoded table.
ghost use Rattle.std.specs.Prelude.{◌≡◌, not, ◌+◌, ◌<◌, ◌≤◌};
ghost use Rattle.text.specs.frames.Frame.{size};
ghost use Rattle.image.specs.Decode.{label_in, row_in, last_label, labels_from, rows_from};
ghost use Rattle.image.specs.Check.{is_within, is_bad_entry, is_label, is_bad_label, has_bad_bit, is_bad_row};
ghost use Rattle.image_check.specs.inner.FieldTests.{has_bad_kind, has_bad_test};

use image::layout::*;
use image::{byte, filled_to, label_byte, label_mask, row_byte, row_pair, rows_from};
use text::frames::sizes::FRAME;

// Label l is of the image, and scheme h owns it or ends with it.
fn is_within(table: &[u8], h: usize, l: usize) -> bool
    requires { rows_from table.now ≤ size table.now }
    ensures { result ≡ is_within table.now h l }
{
    l <= (byte(table, 0, LAST_LABEL) as usize)
        && ((label_byte(table, l, OWNER) as usize) == h || if h == 1 { l == 0 } else { l == 1 })
}

/// 13 refuses the entry of scheme h: a byte that it has no use for is not 0, or the scheme may not start at its label.
pub fn bad_entry(table: &[u8], h: usize) -> bool
    requires labels { rows_from table.now ≤ size table.now }
    requires entry { h < size table.now }
    ensures { result ≡ is_bad_entry table.now h }
{
    filled_to(table, h, 3, FRAME) || !is_within(table, h, byte(table, h, ENTRY_LABEL) as usize)
}

// Label l, which no chart can change, is not of this kind and owner, or has a further field.
fn unlike(table: &[u8], l: usize, kind: u8, owner: u8) -> bool
    requires { labels_from table.now + l < size table.now }
    ensures { result ≡ not (is_label kind owner (label_in table.now l)) }
{
    label_byte(table, l, TICK_KIND) != kind
        || label_byte(table, l, CALLED) != 0
        || label_byte(table, l, OWNER) != owner
        || label_byte(table, l, LABEL_RESULT) != 0
        || label_mask(table, l) != 0
}

// The tick kind of label l is above 2, or the scheme called does not suit it: kind 0 calls none, 1 and 2 one of 2 to H.
fn bad_kind(table: &[u8], l: usize) -> bool
    requires { labels_from table.now + l < size table.now }
    ensures { result ≡ has_bad_kind table.now (label_in table.now l) }
{
    let called = label_byte(table, l, CALLED);
    let kind = label_byte(table, l, TICK_KIND);
    match kind {
        PLAIN => called != 0,
        OPERATION_CALL..=FUNCTION_CALL => {
            if called < 2 {
                return true;
            }
            byte(table, 0, SCHEME_COUNT) < called
        }
        _ => true,
    }
}

// Label l of 2 up.
fn bad_numbered(table: &[u8], l: usize) -> bool
    requires label { labels_from table.now + l < size table.now }
    requires numbered { 2 ≤ l }
    ensures { result ≡ is_bad_label table.now l (label_in table.now l) }
{
    let owner = label_byte(table, l, OWNER);
    bad_kind(table, l)
        || owner == 0
        || byte(table, 0, SCHEME_COUNT) < owner
        || 2 < label_byte(table, l, LABEL_RESULT)
}

/// 13 refuses label l: 0 or 1 is not as in every image, or another has a field outside its values.
pub fn bad_label(table: &[u8], l: usize) -> bool
    requires { labels_from table.now + l < size table.now }
    ensures { result ≡ is_bad_label table.now l (label_in table.now l) }
{
    match l {
        0 => unlike(table, 0, HOME, 1),
        1 => unlike(table, 1, RETURN, 0),
        _ => bad_numbered(table, l),
    }
}

// The function bit of row k.
fn bad_bit(table: &[u8], k: usize) -> bool
    requires row { rows_from table.now + k < size table.now }
    requires from { (row_in table.now k).from ≤ last_label table.now }
    ensures { result ≡ has_bad_bit table.now (row_in table.now k) }
{
    let bit = row_byte(table, k, FUNCTION_BIT);
    let from = row_byte(table, k, FROM) as usize;
    NO_BIT < bit || (bit != NO_BIT && label_byte(table, from, TICK_KIND) != FUNCTION_CALL)
}

// Row k leaves a label that is none of 2 to M, or tests values outside its care mask.
fn bad_test(table: &[u8], k: usize) -> bool
    requires { rows_from table.now + k < size table.now }
    ensures { result ≡ has_bad_test table.now (row_in table.now k) }
{
    let from = row_byte(table, k, FROM);
    let values = row_pair(table, k, VALUES);
    from < 2 || byte(table, 0, LAST_LABEL) < from || values & row_pair(table, k, CARE) != values
}

/// 13 refuses row k: its label, its test or its function bit is none, it leads out of its scheme, or a byte that it has no use for is
/// not 0.
pub fn bad_row(table: &[u8], k: usize) -> bool
    requires { rows_from table.now + k < size table.now }
    ensures { result ≡ is_bad_row table.now (rows_from table.now + k) (row_in table.now k) }
{
    let from = row_byte(table, k, FROM) as usize;
    let next = row_byte(table, k, NEXT) as usize;
    bad_test(table, k)
        || bad_bit(table, k)
        || !is_within(table, label_byte(table, from, OWNER) as usize, next)
        || filled_to(table, rows_from(table) + k, 8, FRAME)
}
