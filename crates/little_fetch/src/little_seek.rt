// A little chart sought by its number: node records are tried place by place, and the charts that are found are counted down.
ghost use Rattle.std.specs.Prelude.{◌≡◌, ◌-◌, ◌≤◌, ◌<◌};
ghost use Rattle.little_charts.specs.inner.Search.{node_count};
ghost use Rattle.little_fetch.specs.inner.Trails.{trails, start, charts_after};
ghost use Rattle.little_fetch.specs.inner.SeekContracts.{sought};

use crate::little_nodes::{Trail, is_barred, is_cut_off, led_to, with_node};
use crate::little_numbers::{first_number, past_number};

/// The chart that comes after `left` others among those that go on from these records at place `v`, as its records' numbers, or how many
/// are still to be passed over where there are fewer.
// all records that may stand at the place are tried, and the rest after each
pub fn seek(n: usize, v: usize, trail: Trail, left: usize) -> Result<u32, usize>
    requires few { n ≤ 4 }
    requires inside { v < n }
    ensures { result ≡ sought (trails n (n - v) trail) left }
{
    let past = past_number(n, v, trail);
    let mut i = first_number(n, trail);
    let mut rest = left;
    while i < past {
        let led = led_to(n, i);
        if !is_barred(n, v, trail, i, led) {
            let next = with_node(n, v, trail, i, led);
            if !is_cut_off(n, v, next) {
                if v + 1 < n {
                    match seek(n, v + 1, next, rest) {
                        Ok(numbers) => return Ok(numbers),
                        Err(fewer) => rest = fewer,
                    }
                } else {
                    if rest == 0 {
                        return Ok(next.numbers);
                    }
                    rest -= 1;
                }
            }
        }
        i += 1;
    }
    Err(rest)
}

// How many charts of n frames begin with record i.
#[tactic(auto, unfolding(crate::specs::inner::Trails::charts_after))]
fn charts_after(n: usize, i: usize) -> usize
    ensures { result ≡ charts_after n i }
{
    match n {
        2 => match i {
            1 | 2 => 1,
            _ => 0,
        },
        3 => match i {
            1 | 2 => 3,
            3 => 6,
            6..=9 | 14 | 18 => 1,
            _ => 0,
        },
        _ => match i {
            1..=3 => 54,
            4 => 162,
            5 | 6 => 12,
            7..=12 => 24,
            18 | 23 | 28 => 16,
            19 | 20 | 22 | 24 | 26 | 27 => 18,
            _ => 0,
        },
    }
}

/// The chart of that number, from 0, among all of `n` frames, 2 to 4, as its records' numbers, or how many are still to be passed over
/// where there are fewer.
// as many charts are passed over at once as begin with a record, until the one sought begins so
pub fn seek_first(n: usize, number: usize) -> Result<u32, usize>
    requires some { 2 ≤ n }
    requires few { n ≤ 4 }
    ensures { result ≡ sought (trails n n start) number }
{
    let trail = Trail {
        numbers: 0,
        arcs: 0,
        begin: 0,
        end: 0,
        conditions: 0,
    };
    let past = past_number(n, 0, trail);
    let mut rest = number;
    for i in 0..past {
        let count = charts_after(n, i);
        if rest < count {
            let led = led_to(n, i);
            let next = with_node(n, 0, trail, i, led);
            return seek(n, 1, next, rest);
        }
        rest -= count;
    }
    Err(rest)
}
