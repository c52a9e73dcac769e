//! Which row a label takes: of its rows that match a word and a result bit the best-tested, of equals the later.
//! Here a row is matched and two are compared; `row_search` finds the row in a prepared table, and where it leads. `listing` lists the rows
//! of each label, and `image_rows` is the entry point to that.
#![tactic(auto)]

ghost use Rattle.std.specs.Prelude.{◌≡◌, ◌%◌, ◌≤◌, ◌<◌};
ghost use Rattle.std.specs.Int.Count.{ones};
ghost use Rattle.text.specs.frames.Frame.{size, pair_at};
ghost use Rattle.rows.specs.Choices.{ChosenIsBest, BestIsChosen, BestOnce, NoneMatches, NoneChosen};
ghost use Rattle.rows.specs.listing.Exact.{Exactly, EmptyZero, LowZero, HeldOnSuccess, ListedFrames};
ghost use Rattle.rows.specs.inner.Search.{swapped_word, is_agreeing_frame, is_suited_frame, is_matching_frame, BetterOf, BestFrom};
ghost use Rattle.rows.specs.inner.Search.{IsCounted};

pub mod image_rows;
pub mod listing;
pub mod row_search;

use image::layout::*;
use image::{byte, pair};
use tables::row_ranges::low_pair;

/// The number of no frame: whatever bytes its header has, a table has fewer.
pub const NO_FRAME: u32 = 131072;

/// The two bytes of a word in the other order, in the lower half of a number whose upper half means nothing: a row is compared with its
/// bytes as they stand.
// that spares swapping those of care mask and values at each row; and of a number whose upper half it doesn't know the compiler for a
// Cortex-M3 reads two bytes at once
pub fn swap(word: u16) -> u32
    ensures { swapped_word (result % 65536) ≡ word }
{
    (word as u32) * 256 + (word as u32) / 256
}

/// Whether the row in frame `f` agrees with a word, given as `swap` gives it: where its care mask has ones, its values are the word's bits.
pub fn is_agreeing(bytes: &[u8], f: usize, swapped: u32) -> bool
    requires { f < size bytes.now }
    ensures { result ≡ is_agreeing_frame bytes.now (swapped_word (swapped % 65536)) f }
{
    ((swapped % 65536) as u16) & low_pair(bytes, f, CARE) == low_pair(bytes, f, VALUES)
}

/// Whether the row in frame `f` suits a result bit, 2 where no bit decides: it asks for no bit, or for this one.
pub fn is_suited(bytes: &[u8], f: usize, bit: u8) -> bool
    requires { f < size bytes.now }
    ensures { result ≡ is_suited_frame bytes.now bit f }
{
    if bit == NO_BIT {
        return true;
    }
    let only = byte(bytes, f, FUNCTION_BIT);
    if only == NO_BIT {
        return true;
    }
    only == bit
}

/// Whether the row in frame `f` matches a word, given as `swap` gives it, and a result bit, 2 where no bit decides.
pub fn is_matching(bytes: &[u8], f: usize, swapped: u32, bit: u8) -> bool
    requires { f < size bytes.now }
    ensures { result ≡ is_matching_frame bytes.now (swapped_word (swapped % 65536)) bit f }
{
    is_agreeing(bytes, f, swapped) && is_suited(bytes, f, bit)
}

// The best row so far, by its frame, and how many ones its care mask has: they are counted once a row.
#[derive(Clone, Copy)]
struct Best {
    frame: u32,
    ones: u32,
}

// How many ones the care mask of the row in frame `f` has.
fn count_care(bytes: &[u8], f: u32) -> u32
    requires { f < size bytes.now }
    ensures { result ≡ ones (pair_at bytes.now f CARE) }
{
    u16::count_ones(pair(bytes, f as usize, CARE))
}

// Of the best row so far and a later one in frame `f`: the later, unless the care mask of the first has more ones.
fn better_row(bytes: &[u8], best: Best, f: u32) -> Best
    requires counted { IsCounted bytes.now best }
    requires later_inside { f < size bytes.now }
    ensures better { BetterOf bytes.now best.frame f result.frame }
    ensures counted { IsCounted bytes.now result }
{
    let ones = count_care(bytes, f);
    if ones < best.ones {
        return best;
    }
    Best { frame: f, ones }
}

/// The frame of the best of the row in frame `found` and of the rows that match in the later frames from `first` up to `end`.
pub fn compare_rows(bytes: &[u8], found: u32, first: u32, end: u32, swapped: u32, bit: u8) -> u32
    requires inside { found < size bytes.now }
    requires later_inside { end ≤ size bytes.now }
    ensures { BestFrom bytes.now (swapped_word (swapped % 65536)) bit found first end result }
{
    let ones = count_care(bytes, found);
    let mut best = Best { frame: found, ones };
    let mut frame = first;
    while frame < end {
        if is_matching(bytes, frame as usize, swapped, bit) {
            best = better_row(bytes, best, frame);
        }
        frame += 1;
    }
    best.frame
}

/// The row chosen among those of a label is the best-tested of those that match, of equals the later, and none where none matches.
pub fn the_best_tested_row_is_chosen()
    ensures chosen_is_best { ChosenIsBest }
    ensures best_is_chosen { BestIsChosen }
    ensures best_once { BestOnce }
    ensures none_matches { NoneMatches }
    ensures none_chosen { NoneChosen }
{}

/// A listing is exact, of every accepted image: the rows of each label and no others, 0 and 0 where there are none, in the buffers too and
/// by the frames that ticks look at.
pub fn a_listing_is_exact()
    ensures exactly { Exactly }
    ensures empty_zero { EmptyZero }
    ensures low_zero { LowZero }
    ensures held { HeldOnSuccess }
    ensures listed_frames { ListedFrames }
{}
