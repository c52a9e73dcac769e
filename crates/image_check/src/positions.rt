// Refusals 11 and 12: the header, and what each frame has to be by its position.
ghost use Rattle.std.specs.Prelude.{◌≡◌, ◌<◌, ◌≤◌};
ghost use Rattle.words.specs.lists.Numbers.{lowest};
ghost use Rattle.text.specs.frames.Frame.{size};
ghost use Rattle.image.specs.Check.{is_bad_header, position_of, is_stray};
ghost use Rattle.image_check.specs.inner.CheckedFrames.{position_kind};

use crate::image_strays::{stray_entry, stray_label, stray_row};
use image::layout::*;
use image::{bad_counts, bad_handler, byte, filled_to, labels_from, pair, rows_from};
use text::frames::sizes::FRAME;

/// 11 refuses the header: its kind, its counts, its handler, a byte that is to be 0, or the number of frames.
#[tactic(auto, unfolding(image::specs::Check::is_bad_header))]
pub fn bad_header(table: &[u8]) -> bool
    requires { 0 < size table.now }
    ensures { result ≡ is_bad_header table.now }
{
    byte(table, 0, FRAME_KIND) != HEADER
        || filled_to(table, 0, 6, FRAME)
        || bad_handler(table)
        || bad_counts(table)
        || table.len() / FRAME != rows_from(table) + (pair(table, 0, ROW_COUNT) as usize)
}

// The kind byte of frame f by its position.
#[tactic(auto, using(crate::proofs::PositionCases::kinds))]
fn kind_at(table: &[u8], f: usize) -> u8
    requires { f < size table.now }
    ensures { result ≡ position_kind (position_of table.now f) }
{
    if f == 0 {
        return HEADER;
    }
    if f < labels_from(table) {
        return ENTRY;
    }
    if f < rows_from(table) {
        return LABEL;
    }
    ROW
}

// 12 refuses frame f.
#[tactic(auto, using(crate::proofs::PositionCases::strays))]
fn stray_at(table: &[u8], f: usize) -> bool
    requires { f < size table.now }
    ensures { result ≡ is_stray table.now f }
{
    let kind = kind_at(table, f);
    match kind {
        ENTRY => stray_entry(table, f),
        LABEL => stray_label(table, f - labels_from(table)),
        ROW => stray_row(table, f - rows_from(table)),
        _ => false,
    }
}

/// The lowest of n frames that 12 refuses, or n.
#[tactic(auto, using(crate::proofs::image_faults::FaultSearch::search_alone))]
pub fn lowest_stray(table: &[u8], n: usize) -> usize
    requires { n ≤ size table.now }
    ensures { result ≡ lowest (is_stray table.now) 0 n }
{
    let mut f: usize = 0;
    while f < n {
        if stray_at(table, f) {
            return f;
        }
        f += 1;
    }
    f
}
