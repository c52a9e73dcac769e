// How runs end, in tallies: lists that all end alike, the last words of lists, and one list of words that all are 0.
ghost use Rattle.std.specs.Bool.{Decides};
ghost use Rattle.std.specs.Prelude.{◌≡◌, ◌*◌, ◌^◌, ◌≤◌, false};
ghost use Rattle.words.specs.lists.Numbers.{count};
ghost use Rattle.tables.specs.Table.{table_image};
ghost use Rattle.rows.specs.inner.Search.{Deciding};
ghost use Rattle.state.specs.Kept.{view};
ghost use Rattle.fitness.specs.Fitness.{has_bad_depth};
ghost use Rattle.fillings.specs.inner.TallyContracts.{tally_of, number_met_by, all_meet, tally_sum, tally_times, last_tally, FewLists, FewMore, is_taking};

use rows::row_search::takes_row;
use runs::{RunEnd, tick_all};
use state::State;
use tables::Table;
use ticks::Stop;
use ticks::leaving::Leaving;

/// Of some lists: how many run to their end, meet 17 and meet 18.
#[derive(Drop)]
pub struct Tally {
    pub ended: u32,
    pub full: u32,
    pub unmatched: u32,
}

/// 2 to the power k.
pub fn power(k: usize) -> u32
    requires { k ≤ 16 }
    ensures { result ≡ 2 ^ k }
{
    1 << k
}

/// That many lists, all of which are stopped so, or run to their end.
pub fn all_meet(stop: Option<Stop>, lists: u32) -> Tally
    ensures { result ≡ all_meet (number_met_by stop) lists }
{
    let (ended, full, unmatched) = match stop {
        None => (lists, 0, 0),
        Some(Stop::Full) => (0, lists, 0),
        Some(Stop::NoRow) => (0, 0, lists),
    };
    Tally {
        ended,
        full,
        unmatched,
    }
}

/// Adds lists to a tally, so many, all of which are stopped so, or run to their end.
pub fn add_lists(tally: &mut Tally, stop: Option<Stop>, lists: u32)
    requires { FewLists (tally_sum tally.old (all_meet (number_met_by stop) lists)) }
    ensures { tally.new ≡ tally_sum tally.old (all_meet (number_met_by stop) lists) }
{
    match stop {
        None => tally.ended += lists,
        Some(Stop::Full) => tally.full += lists,
        Some(Stop::NoRow) => tally.unmatched += lists,
    }
}

// Of the words below a number, how many match a row of that label.
fn count_matching(table: &Table, leaving: Leaving, words: u32) -> u32
    requires low { 2 ≤ leaving.label }
    requires high { leaving.label ≤ table.now.last }
    requires deciding { Deciding table.now.bytes.now leaving.label leaving.bit }
    requires few { words ≤ 65536 }
    ensures { result ≡ count (is_taking table.now.bytes.now leaving) 0 words }
{
    let mut matching: u32 = 0;
    let mut word: u32 = 0;
    while word < words {
        matching += takes_row(table, leaving.label as usize, word as u16, leaving.bit) as u32;
        word += 1;
    }
    matching
}

/// Adds the lists that end with a last word, `each` for each of the 2 to the power k words. No tick is made, since a list runs to its end
/// just where the label has a row that matches, and else meets 18.
pub fn tally_last(table: &Table, leaving: Leaving, k: usize, each: u32, tally: &mut Tally)
    requires low { 2 ≤ leaving.label }
    requires high { leaving.label ≤ table.now.last }
    requires deciding { Deciding table.now.bytes.now leaving.label leaving.bit }
    requires short { k ≤ 16 }
    requires few { FewMore tally.old (each * 2 ^ k) }
    ensures { tally.new ≡ tally_sum tally.old (tally_times each (last_tally table.now.bytes.now leaving k)) }
{
    let words = power(k);
    let matching = count_matching(table, leaving, words);
    tally.ended += each * matching;
    tally.unmatched += each * (words - matching);
}

// So many words a run, and no more: their masks and codes lie on the stack.
const BLOCK: usize = 64;

// Whether two states are the same, byte by byte.
fn is_same(one: &State, other: &State) -> bool
    ensures { Decides result (one.now ≡ other.now) }
{
    one.depth == other.depth
        && one.places == other.places
        && one.results == other.results
        && one.serving == other.serving
        && one.numbers == other.numbers
        && one.servers == other.servers
        && one.size == other.size
}

/// Words that all are 0: one list, run by run. What a tick of theirs does depends on the state alone, so that none is stopped once a state
/// comes again. After each run the state is compared with an earlier one, that after 1, 2, 4, 8, .. runs.
// called and not taken in: so its rooms are not on the stack where other lists are counted
#[inline(never)]
pub fn tally_one(table: &Table, start: State, n: usize) -> Tally
    requires { has_bad_depth (view start) ≡ false }
    ensures { result ≡ tally_of (table_image table.now.bytes.now) (view start) n 0 }
{
    let words = [0u16; BLOCK];
    let mut masks = [0u32; BLOCK];
    let mut codes = [0u8; BLOCK];
    let mut state = start;
    let mut kept = start;
    let mut done: usize = 0;
    while done < n {
        let more = BLOCK.min(n - done);
        match tick_all(table, &mut state, &words[..more], &mut masks, &mut codes) {
            RunEnd::Over(_) => done += more,
            RunEnd::Full(_) => return all_meet(Some(Stop::Full), 1),
            RunEnd::NoRow(_) => return all_meet(Some(Stop::NoRow), 1),
        }
        if is_same(&state, &kept) {
            return all_meet(None, 1);
        }
        if done.is_power_of_two() {
            kept = state;
        }
    }
    all_meet(None, 1)
}
