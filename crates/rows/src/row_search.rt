// The row of a prepared table that a label takes, found by the word and a result bit, and where it leads.
ghost use Rattle.std.specs.Prelude.{◌≡◌, ◌%◌, ◌≤◌, ◌<◌, if◌then◌else◌, nat_lt};
ghost use Rattle.text.specs.frames.Frame.{size, field};
ghost use Rattle.tables.specs.Table.{table_image};
ghost use Rattle.rows.specs.Rows.{best_row, lead_of, next_of};
ghost use Rattle.rows.specs.inner.Search.{swapped_word, is_matching_frame, Chosen, Deciding, is_found};
ghost use Rattle.rows.specs.inner.NextMatch.{NextAgreeing, NextMatch, RowsOnce};

use crate::{NO_FRAME, compare_rows, is_agreeing, is_matching, is_suited, swap};
use image::byte;
use image::layout::*;
use tables::Table;

// The frame where its row matches, else none.
fn one_row(bytes: &[u8], f: u32, word: u16, bit: u8) -> u32
    requires { f < size bytes.now }
    ensures { result ≡ (if is_matching_frame bytes.now word bit f then f else NO_FRAME) }
{
    if is_matching(bytes, f as usize, swap(word), bit) {
        return f;
    }
    NO_FRAME
}

// The first row from a frame on, up to the end, that agrees with a word, whatever bit it asks for, or the end. Two rows a turn, since most
// rows of a long label do not agree, and a turn costs about as much as a row; and nothing but a row that agrees leaves the loop, so that
// its turns follow each other without a jump between.
#[inline(always)]
fn next_agreeing(bytes: &[u8], from: u32, end: u32, swapped: u32) -> u32
    requires some { from < end }
    requires inside { end ≤ size bytes.now }
    ensures { NextAgreeing bytes.now (swapped_word (swapped % 65536)) from end result }
{
    let last = end - 1;
    let mut f = from;
    while f < last {
        if is_agreeing(bytes, f as usize, swapped) {
            return f;
        }
        if is_agreeing(bytes, (f as usize) + 1, swapped) {
            return f + 1;
        }
        f += 2;
    }
    if f == last {
        if is_agreeing(bytes, f as usize, swapped) {
            return f;
        }
    }
    end
}

// The first row from a frame on, up to the end, that matches, or the end. Where the first that agrees asks for another bit, the rows behind
// it are tried one by one. In its caller's own body, since a run's ticks seek most of all, and the calls cost more than the rows of a
// short label.
#[inline(always)]
fn next_match(bytes: &[u8], from: u32, end: u32, swapped: u32, bit: u8) -> u32
    requires { end ≤ size bytes.now }
    ensures { NextMatch bytes.now (swapped_word (swapped % 65536)) bit from end result }
{
    if end <= from {
        return end;
    }
    let agreeing = next_agreeing(bytes, from, end, swapped);
    if end <= agreeing {
        return end;
    }
    if is_suited(bytes, agreeing as usize, bit) {
        return agreeing;
    }
    let mut f = agreeing + 1;
    while f < end {
        if is_matching(bytes, f as usize, swapped, bit) {
            return f;
        }
        f += 1;
    }
    end
}

/// Each row of a label is passed over by one of the searches, or is one that they stop at, or is compared, and no row is two of these. The
/// bound of a tick's time rests on it.
pub fn no_row_is_looked_at_twice()
    ensures { RowsOnce }
{}

/// The frame of the row that label `l` takes, 2 to M, by a word and a result bit, 2 where the label calls no function; NO_FRAME where no
/// row matches.
// rows are compared only where more than one matches, on the image of a chart never; where the rows stand is read anew, since what is handed
// over takes registers in a tick
pub fn find_row(table: &Table, l: usize, word: u16, bit: u8) -> u32
    requires low { 2 ≤ l }
    requires high { l ≤ table.now.last }
    requires deciding { Deciding table.now.bytes.now l bit }
    ensures { Chosen table.now.bytes.now l word bit result }
{
    let bytes = table.bytes;
    let swapped = swap(word);
    let first = table.first_of(l) as u32;
    let end = table.end_of(l) as u32;
    let found = next_match(bytes, first, end, swapped, bit);
    if end <= found {
        return NO_FRAME;
    }
    let second = next_match(bytes, found + 1, end, swapped, bit);
    if end <= second {
        return found;
    }
    // the second is matched once more, which spares a parameter
    compare_rows(bytes, found, second, end, swapped, bit)
}

// The row that label l takes. A label of one row, and one of two of which just one matches, are settled here; the search is called for all
// others. Which of two rows matches is asked by branches: where they are predicted, the next tick need not wait for it. Taken in where a
// tick is made, it asks for no bit in a plain tick, and saves no register.
#[inline(always)]
fn take_row(table: &Table, l: usize, word: u16, bit: u8) -> u32
    requires low { 2 ≤ l }
    requires high { l ≤ table.now.last }
    requires deciding { Deciding table.now.bytes.now l bit }
    ensures { Chosen table.now.bytes.now l word bit result }
{
    let first = table.first_of(l) as u32;
    let end = table.end_of(l) as u32;
    if end == first + 1 {
        return one_row(table.bytes, first, word, bit);
    }
    if end == first + 2 {
        let swapped = swap(word);
        let f = first as usize;
        if is_matching(table.bytes, f, swapped, bit) {
            if !is_matching(table.bytes, f + 1, swapped, bit) {
                return first;
            }
        } else if is_matching(table.bytes, f + 1, swapped, bit) {
            return first + 1;
        }
    }
    find_row(table, l, word, bit)
}

// Where the row in frame f leads, or NO_LABEL where that is none.
fn next_in(bytes: &[u8], f: u32) -> u16
    requires { f < NO_FRAME → f < size bytes.now }
    ensures { result ≡ (if nat_lt f NO_FRAME then field bytes.now f NEXT else NO_LABEL) }
{
    if f < NO_FRAME {
        return byte(bytes, f as usize, NEXT) as u16;
    }
    NO_LABEL
}

/// The label that the row taken by label `l` leads to, or NO_LABEL where no row matches.
#[tactic(auto, using(crate::proofs::SearchCases::leading))]
pub fn next_row(table: &Table, l: usize, word: u16, bit: u8) -> u16
    requires low { 2 ≤ l }
    requires high { l ≤ table.now.last }
    requires deciding { Deciding table.now.bytes.now l bit }
    ensures { result ≡ next_of (lead_of (best_row l word bit 0 (table_image table.now.bytes.now).rows)) }
{
    let f = take_row(table, l, word, bit);
    next_in(table.bytes, f)
}

/// The same of a label that calls no function, where no bit decides.
#[tactic(auto, using(crate::proofs::SearchCases::leading))]
pub fn next_free(table: &Table, l: usize, word: u16) -> u16
    requires low { 2 ≤ l }
    requires high { l ≤ table.now.last }
    requires deciding { Deciding table.now.bytes.now l NO_BIT }
    ensures { result ≡ next_of (lead_of (best_row l word NO_BIT 0 (table_image table.now.bytes.now).rows)) }
{
    let f = take_row(table, l, word, NO_BIT);
    next_in(table.bytes, f)
}

/// Whether label l takes a row: the first that matches is enough, and no two are compared.
pub fn takes_row(table: &Table, l: usize, word: u16, bit: u8) -> bool
    requires low { 2 ≤ l }
    requires high { l ≤ table.now.last }
    requires deciding { Deciding table.now.bytes.now l bit }
    ensures { result ≡ is_found (lead_of (best_row l word bit 0 (table_image table.now.bytes.now).rows)) }
{
    let first = table.first_of(l) as u32;
    let end = table.end_of(l) as u32;
    next_match(table.bytes, first, end, swap(word), bit) < end
}
