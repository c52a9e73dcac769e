// Refusals 12 and 13 together, in one pass: entries, then labels, then rows.
ghost use Rattle.std.specs.Prelude.{◌≡◌, ◌-◌, ◌≤◌};
ghost use Rattle.words.specs.lists.Numbers.{lowest};
ghost use Rattle.text.specs.frames.Frame.{size};
ghost use Rattle.image.specs.Decode.{labels_from, rows_from};
ghost use Rattle.image_check.specs.inner.FaultyFrames.{is_faulty};

use crate::image_fields::{bad_entry, bad_label, bad_row};
use crate::image_strays::{stray_entry, stray_label, stray_row};
use image::{labels_from, rows_from};
use text::frames::sizes::FRAME;

// The lowest entry at fault, or the first label; frames are counted.
#[tactic(auto, using(crate::proofs::image_faults::FaultSearch::entry_search))]
fn lowest_entry(table: &[u8], end: usize) -> usize
    requires labels { rows_from table.now ≤ size table.now }
    requires end { end ≡ labels_from table.now }
    ensures { result ≡ lowest (is_faulty table.now) 1 (end - 1) }
{
    let mut f: usize = 1;
    while f < end {
        if stray_entry(table, f) {
            return f;
        }
        if bad_entry(table, f) {
            return f;
        }
        f += 1;
    }
    f
}

// The lowest label at fault, or the first row.
#[tactic(auto, using(crate::proofs::image_faults::FaultSearch::label_search))]
fn lowest_label(table: &[u8], first: usize, end: usize) -> usize
    requires inside { end ≤ size table.now }
    requires first { first ≡ labels_from table.now }
    requires end { end ≡ rows_from table.now }
    ensures { result ≡ lowest (is_faulty table.now) first (end - first) }
{
    let mut f = first;
    while f < end {
        if stray_label(table, f - first) {
            return f;
        }
        if bad_label(table, f - first) {
            return f;
        }
        f += 1;
    }
    f
}

// The lowest row at fault, or the number of frames.
#[tactic(auto, using(crate::proofs::image_faults::FaultSearch::row_search))]
fn lowest_row(table: &[u8], first: usize, end: usize) -> usize
    requires inside { end ≤ size table.now }
    requires first { first ≡ rows_from table.now }
    requires up { first ≤ end }
    ensures { result ≡ lowest (is_faulty table.now) first (end - first) }
{
    let mut f = first;
    while f < end {
        if stray_row(table, f - first) {
            return f;
        }
        if bad_row(table, f - first) {
            return f;
        }
        f += 1;
    }
    f
}

/// The lowest frame that 12 or 13 refuses, or the number of frames.
pub fn lowest_fault(table: &[u8]) -> usize
    requires { rows_from table.now ≤ size table.now }
    ensures { result ≡ lowest (is_faulty table.now) 0 (size table.now) }
{
    let labels = labels_from(table);
    let entry = lowest_entry(table, labels);
    if entry < labels {
        return entry;
    }
    let rows = rows_from(table);
    let label = lowest_label(table, labels, rows);
    if label < rows {
        return label;
    }
    lowest_row(table, rows, table.len() / FRAME)
}
