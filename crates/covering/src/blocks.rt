// Whether some word and bit match two rows of a label, block by block. Of a block it is noted what its rows share, and a row that differs
// there is compared with none of them: the rows of a label mostly stand as a tree of conditions has them, so those of a block share most.
ghost use Rattle.std.specs.Prelude.{◌≡◌, ◌+◌, ◌-◌, ◌≤◌, ◌<◌, min};
ghost use Rattle.std.specs.List.{list_any, range_with_len};
ghost use Rattle.text.specs.frames.Frame.{size};
ghost use Rattle.image.specs.Decode.{row_in_frame};
ghost use Rattle.covering.specs.inner.CoveringContracts.{is_together_with_some, has_any_together};
ghost use Rattle.covering.specs.declared.blocks.TheConstants.{BLOCK};
ghost use Rattle.covering.specs.inner.Sharing.{Shares, is_agreeing_with, has_any_across};

use crate::pairs::{any_within, meets};
use image::layout::*;
use image::{byte, pair};

/// How many rows a block has; the last one may have fewer.
pub const BLOCK: usize = 32;

/// What some rows share: conditions that all care for, and the values that they all have there.
#[derive(Clone, Copy)]
pub struct Shared {
    pub care: u16,
    pub values: u16,
}

/// What the rows in frames from first up to end share. That it is all that they share nothing promises: what is found does not rest on it.
pub fn shared_by(table: &[u8], first: usize, end: usize) -> Shared
    requires some_row { first < end }
    requires inside { end ≤ size table.now }
    ensures { Shares table.now first end result.care result.values }
{
    let mut care = pair(table, first, CARE);
    let mut values = pair(table, first, VALUES) & care;
    for g in first + 1..end {
        care = care & pair(table, g, CARE) & !(values ^ pair(table, g, VALUES));
        values = values & care;
    }
    Shared { care, values }
}

/// Whether the row in frame f has the shared values wherever it cares for the shared conditions. Else no word and bit match both it and a row
/// that shares them.
pub fn agrees(table: &[u8], shared: Shared, f: usize) -> bool
    requires { f < size table.now }
    ensures { result ≡ is_agreeing_with shared.care shared.values (row_in_frame table.now f) }
{
    pair(table, f, VALUES) & shared.care == shared.values & pair(table, f, CARE)
}

// Whether some word and bit match the row in frame f and one in the frames from first up to end, which share this.
fn meets_block(table: &[u8], shared: Shared, first: usize, end: usize, f: usize) -> bool
    requires inside { end ≤ size table.now }
    requires row_inside { f < size table.now }
    requires shares { Shares table.now first end shared.care shared.values }
    ensures { result ≡ is_together_with_some table.now (row_in_frame table.now f) first (end - first) }
{
    let care = pair(table, f, CARE);
    let values = pair(table, f, VALUES);
    let bit = byte(table, f, FUNCTION_BIT);
    agrees(table, shared, f) && (first..end).any(|g| meets(table, g, care, values, bit))
}

// Whether some word and bit match a row in the frames from first up to end and one in those from there up to last.
fn any_across(table: &[u8], first: usize, end: usize, last: usize) -> bool
    requires some_row { first < end }
    requires in_order { end ≤ last }
    requires inside { last ≤ size table.now }
    ensures { result ≡ has_any_across table.now first end last }
{
    let shared = shared_by(table, first, end);
    (end..last).any(|f| meets_block(table, shared, first, end, f))
}

/// Where the block that begins at first ends.
pub fn block_end(first: usize, last: usize) -> usize
    requires { first < last }
    ensures after { first < result }
    ensures inside { result ≤ last }
    ensures end { result ≡ min last (first + BLOCK) }
{
    if last - first <= BLOCK {
        return last;
    }
    first + BLOCK
}

/// Whether some word and bit match two of the rows in frames from first up to end.
pub fn any_together(table: &[u8], first: usize, end: usize) -> bool
    requires in_order { first ≤ end }
    requires inside { end ≤ size table.now }
    ensures { result ≡ has_any_together table.now first (end - first) }
{
    let mut from = first;
    while from < end {
        let next = block_end(from, end);
        if any_within(table, from, next) || any_across(table, from, next, end) {
            return true;
        }
        from = next;
    }
    false
}
