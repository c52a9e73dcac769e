// The conditions that keep the other rows of a label from matching.
ghost use Rattle.std.specs.Prelude.{◌≡◌, ◌-◌, ◌<◌};
ghost use Rattle.words.specs.lists.Numbers.{lowest};
ghost use Rattle.cause.specs.Cause.{is_differing};
ghost use Rattle.cause.specs.inner.CauseContracts.{RowAsked, RowsAsked, is_let_through, mask_against_in, mask_against_from};

use image::layout::*;
use image::{byte, pair};
use words::bits::{bit, with_bit};

// Whether condition i is in the care mask and has another value in the word.
fn differs(word: u16, care: u16, values: u16, i: u8) -> bool
    requires { i < 16 }
    ensures { result ≡ is_differing word care values i }
{
    bit(care, i) == 1 && bit(word, i) != bit(values, i)
}

// The lowest such condition, or 16.
fn lowest_differing(word: u16, care: u16, values: u16) -> u8
    ensures { result ≡ lowest (is_differing word care values) 0 16 }
{
    let mut low: u8 = 16;
    let mut i: u8 = 16;
    while 0 < i {
        i -= 1;
        if differs(word, care, values, i) {
            low = i;
        }
    }
    low
}

// Whether the bit lets a row through that asks for this one; bit 2 says that no bit decides.
fn lets_through(only: u8, bit: u8) -> bool
    ensures { result ≡ is_let_through only bit }
{
    bit == NO_BIT || only == NO_BIT || only == bit
}

// The lowest condition that contradicts the row in frame f, as a mask; a row that the bit shuts out or that matches adds none.
fn against_row(table: &[u8], f: usize, word: u16, bit: u8) -> u16
    requires { RowAsked table.now f }
    ensures { result ≡ mask_against_in table.now word bit f }
{
    if !lets_through(byte(table, f, FUNCTION_BIT), bit) {
        return 0;
    }
    let care = pair(table, f, CARE);
    let values = pair(table, f, VALUES);
    if word & care == values {
        return 0;
    }
    with_bit(0, lowest_differing(word, care, values))
}

/// The conditions that keep a word and a bit from the rows in the frames from `first` up to `end`, one of each such row, as a mask.
// joined from the last row on
pub fn against_rows(table: &[u8], first: usize, end: usize, word: u16, bit: u8) -> u16
    requires { RowsAsked table.now first end }
    ensures { result ≡ mask_against_from table.now word bit first (end - first) }
{
    let mut mask: u16 = 0;
    let mut f = end;
    while first < f {
        f -= 1;
        mask = against_row(table, f, word, bit) | mask;
    }
    mask
}
