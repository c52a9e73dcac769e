//! Whether each word and bit match just one row of each label from 2 up: refusal 23. Words are not tried: no two rows of a label can match
//! together (`pairs`, in `blocks`), and for each bit the numbers of words that its rows match sum up to 65,536.
#![tactic(auto)]

ghost use Rattle.std.specs.Prelude.{◌≡◌, ◌||◌, ◌-◌, ◌≤◌, ◌<◌, find, ◌==◌};
ghost use Rattle.std.specs.List.{list_any, range_with_len};
ghost use Rattle.text.specs.declared.frames.sizes.TheConstants.{ROWS};
ghost use Rattle.text.specs.frames.Frame.{size};
ghost use Rattle.image.specs.Decode.{decoded_image, row_in_frame};
ghost use Rattle.covering.specs.Matched.{is_uneven};
ghost use Rattle.covering.specs.Common.{TogetherCommon, CommonTogether};
ghost use Rattle.covering.specs.inner.CoveringContracts.{SoundTable};
ghost use Rattle.covering.specs.inner.CoveringContracts.{words_with, words_in, has_bit, has_uneven_rows, is_other};

pub mod blocks;
mod pairs;

use crate::blocks::any_together;
pub use crate::pairs::are_together;
use image::layout::*;
use image::{byte, pair, rows_from};
use text::frames::sizes::FRAME;

// Whether a row with this function bit may match with the bit.
fn suits(only: u8, bit: u8) -> bool
    ensures { result ≡ (only == NO_BIT || only == bit) }
{
    only == NO_BIT || only == bit
}

// How many words the row in frame f matches with a bit.
fn words_of(table: &[u8], f: usize, bit: u8) -> u32
    requires { f < size table.now }
    ensures number { result ≡ words_with bit (row_in_frame table.now f) }
    ensures most { result ≤ 65536 }
{
    if !suits(byte(table, f, FUNCTION_BIT), bit) {
        return 0;
    }
    let care = pair(table, f, CARE);
    let free = 16 - u16::count_ones(care);
    1 << free
}

// The sum over the rows in frames from first up to end.
fn words_in(table: &[u8], first: usize, end: usize, bit: u8) -> u32
    requires in_order { first ≤ end }
    requires inside { end ≤ size table.now }
    requires few { end - first ≤ ROWS }
    ensures { result ≡ words_in table.now bit first (end - first) }
{
    let mut total: u32 = 0;
    for f in first..end {
        total += words_of(table, f, bit);
    }
    total
}

// Whether a row in the frames from first up to end has a function bit.
fn has_function_bit(table: &[u8], first: usize, end: usize) -> bool
    requires { end ≤ size table.now }
    ensures { result ≡ list_any (has_bit table.now) (range_with_len first (end - first)) }
{
    (first..end).any(|f| byte(table, f, FUNCTION_BIT) != NO_BIT)
}

// The sum with bit 1, where this is the one with bit 0: where no row has a function bit both are the same.
fn other_words_in(table: &[u8], first: usize, end: usize, sum: u32) -> u32
    requires in_order { first ≤ end }
    requires inside { end ≤ size table.now }
    requires few { end - first ≤ ROWS }
    requires sum { sum ≡ words_in table.now 0 first (end - first) }
    ensures { result ≡ words_in table.now 1 first (end - first) }
{
    if !has_function_bit(table, first, end) {
        return sum;
    }
    words_in(table, first, end, 1)
}

// Whether the rows in frames from first up to end, those of one label, leave a word out or match one twice. Pairs of rows are tried last:
// they are the most.
fn uneven_rows(table: &[u8], first: usize, end: usize) -> bool
    requires in_order { first ≤ end }
    requires inside { end ≤ size table.now }
    requires few { end - first ≤ ROWS }
    ensures { result ≡ has_uneven_rows table.now first (end - first) }
{
    let sum = words_in(table, first, end, 0);
    sum != 65536
        || other_words_in(table, first, end, sum) != 65536
        || any_together(table, first, end)
}

// The first frame from f on without a row of the label, if there is one.
fn rows_end(table: &[u8], f: usize, label: u8) -> Option<usize>
    requires { f ≤ size table.now }
    ensures { result ≡ find (is_other table.now label) (range_with_len f (size table.now - f)) }
{
    (f..table.len() / FRAME).find(|g| byte(table, *g, FROM) != label)
}

/// Refusal 23: whether some label from 2 up leaves a word out, with one of the two bits, or has two rows for one. The rows stand in the order
/// of their labels, so those of a label begin where those of the label before end.
pub fn is_uneven(table: &[u8]) -> bool
    requires { SoundTable table.now }
    ensures { result ≡ is_uneven (decoded_image table.now) }
{
    let last = byte(table, 0, LAST_LABEL) as usize;
    let rows = table.len() / FRAME;
    let mut first = rows_from(table);
    for l in 2..last + 1 {
        let end = rows_end(table, first, l as u8).unwrap_or(rows);
        if uneven_rows(table, first, end) {
            return true;
        }
        first = end;
    }
    false
}

/// Where two rows of an accepted image are together by their masks some word and bit match both; where a word and a bit match two rows they
/// are together.
pub fn masks_tell_what_matches_two_rows()
    ensures together_common { TogetherCommon }
    ensures common_together { CommonTogether }
{}
