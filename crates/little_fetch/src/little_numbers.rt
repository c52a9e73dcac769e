// Node records by number, and the numbers that are tried at a place.
ghost use Rattle.std.specs.Prelude.{◌≡◌, ◌*◌, ◌≤◌, ◌<◌};
ghost use Rattle.little_charts.specs.inner.Search.{node_at};
ghost use Rattle.little_fetch.specs.inner.Trails.{absent, first_number, past_number};

use crate::little_nodes::Trail;
use charts::layout::*;
use text::frames::sizes::RECORD;

/// Record `i` of those that nodes of a chart of `n` frames can have, 1 to 4: a Begin for each node that it can lead to, the End, then
/// operations and conditions.
#[tactic(auto, using(crate::proofs::little_numbers::Records::node_cases))]
pub fn node(n: usize, i: usize) -> [u8; RECORD]
    requires some { 1 ≤ n }
    requires few { n ≤ 4 }
    requires number { i < 32 }
    ensures { result ≡ node_at n i }
{
    if i < n {
        return [BEGIN, 1, 0, i as u8, 0, 0, 0, 0, 0, 0];
    }
    if i == n {
        return [END, 1, 0, 0, 0, 0, 0, 0, 0, 0];
    }
    if i < 3 * n + 1 {
        let j = i - (n + 1);
        return [OPERATION, 1, 0, (j / 2) as u8, 0, 0, 0, 0, 0, (j % 2) as u8];
    }
    let j = i - (3 * n + 1);
    [CONDITION, 1, 0, (j / n) as u8, (j % n) as u8, 0, 0, 0, 0, 0]
}

/// The number of the first record to try: no second Begin is tried.
pub fn first_number(n: usize, trail: Trail) -> usize
    ensures { result ≡ first_number n trail }
{
    if trail.begin != 0 {
        return n;
    }
    0
}

// 1 where the set is empty.
fn absent(set: u8) -> usize
    ensures { result ≡ absent set }
{
    if set != 0 {
        return 0;
    }
    1
}

/// The number after that of the last record to try at place `v`: where no more places are left than Begin and End still need, none
/// behind the End's is tried.
pub fn past_number(n: usize, v: usize, trail: Trail) -> usize
    requires inside { v ≤ n }
    requires few { n ≤ 4 }
    ensures { result ≡ past_number n v trail }
{
    let begins = absent(trail.begin);
    let ends = absent(trail.end);
    if n - v <= begins + ends {
        return n + 1;
    }
    n * n + 3 * n + 1
}
