// Refusal 12 of entries and rows, and 13 of the fields of all frames.
ghost use Rattle.std.specs.Prelude.{◌≡◌, ◌<◌, ◌≤◌};
ghost use Rattle.words.specs.lists.Numbers.{lowest};
ghost use Rattle.text.specs.frames.Frame.{size};
ghost use Rattle.image.specs.Decode.{rows_from};
ghost use Rattle.image.specs.Check.{has_bad_content};
ghost use Rattle.table_check.specs.TableCheck.{is_displaced};

use image::{labels_from, rows_from};
use image_check::image_fields::{bad_entry, bad_label, bad_row};
use image_check::image_strays::{stray_entry, stray_row};

// 12, of one frame: where an image has a label's kind and number a table has its note.
#[tactic(auto, using(crate::proofs::PlacingCases::displacing))]
fn displaced(table: &[u8], f: usize) -> bool
    requires { f < size table.now }
    ensures { result ≡ is_displaced table.now f }
{
    if f == 0 {
        return false;
    }
    if f < labels_from(table) {
        return stray_entry(table, f);
    }
    let rows = rows_from(table);
    if f < rows {
        return false;
    }
    stray_row(table, f - rows)
}

// 13, of the fields of one frame
#[tactic(auto, using(crate::proofs::PlacingCases::contents_told))]
fn bad_content(table: &[u8], f: usize) -> bool
    requires rows_inside { rows_from table.now ≤ size table.now }
    requires inside { f < size table.now }
    ensures { result ≡ has_bad_content table.now f }
{
    if f == 0 {
        return false;
    }
    let labels = labels_from(table);
    if f < labels {
        return bad_entry(table, f);
    }
    let rows = rows_from(table);
    if f < rows {
        return bad_label(table, f - labels);
    }
    bad_row(table, f - rows)
}

/// The lowest of n frames that stands in a wrong place, or n.
#[tactic(auto, using(image_check::proofs::image_faults::FaultSearch::search_alone))]
pub fn lowest_displaced(table: &[u8], n: usize) -> usize
    requires { n ≤ size table.now }
    ensures { result ≡ lowest (is_displaced table.now) 0 n }
{
    let mut f: usize = 0;
    while f < n {
        if displaced(table, f) {
            return f;
        }
        f += 1;
    }
    f
}

/// The lowest of n frames with a field that no image has, or n.
#[tactic(auto, using(image_check::proofs::image_faults::FaultSearch::search_alone))]
pub fn lowest_bad(table: &[u8], n: usize) -> usize
    requires rows_inside { rows_from table.now ≤ size table.now }
    requires inside { n ≤ size table.now }
    ensures { result ≡ lowest (has_bad_content table.now) 0 n }
{
    let mut f: usize = 0;
    while f < n {
        if bad_content(table, f) {
            return f;
        }
        f += 1;
    }
    f
}
