// The entry point to how often the stack fills: all lists of words, counted by how they run from a fresh state.
ghost use Rattle.std.specs.Prelude.{false, ◌≡◌, ◌*◌, ◌≤◌};
ghost use Rattle.tables.specs.Table.{table_image};
ghost use Rattle.state.specs.State.{fresh, is_bad_size};
ghost use Rattle.state.specs.Kept.{view};
ghost use Rattle.fillings.specs.Counts.{has_too_many_lists, count_fillings};
ghost use Rattle.fillings.specs.inner.TallyContracts.{tally_of};
ghost use Rattle.fillings.specs.CountingContracts.{GivesFillings};

use crate::fill_counts::{Tally, all_meet, tally_one};
use crate::fill_lists::tally_all;
use state::{State, bad_size};
use tables::Table;
use tables::sources::{Source, Text};
use text::frames::Refusal;
use text::frames::sizes::TABLE;

// 28: each bound by itself, so that no product wraps.
fn too_many(n: usize, k: usize) -> bool
    ensures { result ≡ has_too_many_lists n k }
{
    16 < k || 65536 < n || 16 < n * k
}

fn fresh_of(size: usize) -> State
    requires { is_bad_size size ≡ false }
    ensures { view result ≡ fresh size }
{
    State::fresh(size).state
}

// Words without conditions are one list, however long it is; else there are at most 16 words.
fn tally(table: &Table, size: usize, n: usize, k: usize) -> Tally
    requires good_size { is_bad_size size ≡ false }
    requires few_bits { n * k ≤ 16 }
    ensures { result ≡ tally_of (table_image table.now.bytes.now) (fresh size) n k }
{
    let state = fresh_of(size);
    if k == 0 {
        return tally_one(table, state, n);
    }
    let mut tally = all_meet(None, 0);
    tally_all(table, &state, n, k, 1, &mut tally);
    tally
}

/// Of all lists of n words in which no condition but the first k is set, each run from a fresh state of `size` places, 1 to 32: how many run to
/// their end, meet 17 and meet 18.
///
/// Refuses what the image check does, then 14, then 28: more than 16 conditions, more than 65,536 words, or a product of both above 16.
pub fn count_fillings(image: &[u8], size: usize, n: usize, k: usize) -> Result<Tally, Refusal>
    ensures { GivesFillings (count_fillings image.now size n k) result }
{
    let mut room = [0u8; TABLE];
    let table = Text::table(image, &mut room)?;
    if bad_size(size) {
        return Err(Refusal::BadSize);
    }
    if too_many(n, k) {
        return Err(Refusal::ManyLists);
    }
    Ok(tally(&table, size, n, k))
}
