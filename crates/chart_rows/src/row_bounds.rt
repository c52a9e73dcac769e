// An upper bound on the rows of a chart: no more paths go on from a node than the numbers that they may test have values.
ghost use Rattle.std.specs.Prelude.{ℕ, ◌^◌, ◌≤◌, length};
ghost use Rattle.chart_rows.specs.Rows.{rows};
ghost use Rattle.chart_rows.specs.inner.PathContracts.{Noted, NotedAt, Entered, FewPaths, Masked};
ghost use Rattle.chart_rows.specs.inner.NodeRows.{untested_count, node_rows};

use charts::field;
use charts::layout::*;
use text::frames::sizes::{NODES, RECORD};
use words::bits::with_bit;

// The numbers that paths on from a node may test, as bits, by those of the nodes behind its arcs.
#[tactic(auto, using(crate::proofs::row_bounds::BoundLaws::own_masks))]
fn mask_of(records: &[u8], notes: &[u8], masks: &[u16], v: usize) -> u16
    requires noted_at { NotedAt records.now notes.now v }
    requires masked { Masked records.now masks.now }
    ensures { Entered records.now v → FewPaths records.now v result }
{
    let i = notes[NODES + v];
    if i > 15 {
        return 0;
    }
    let low = masks[field(records, v, NEXT0) as usize];
    let high = masks[field(records, v, NEXT1) as usize];
    with_bit(low | high, i)
}

// The masks of all nodes, the first node first: known where arcs lead back, all numbers where they lead on.
fn mask_upward(records: &[u8], notes: &[u8], masks: &mut [u16])
    requires noted { Noted records.now notes.now }
    requires masked { Masked records.now masks.old }
    ensures { Masked records.now masks.new }
{
    let n = records.len() / RECORD;
    for v in 0..n {
        let mask = mask_of(records, notes, masks, v);
        masks[v] = mask;
    }
}

// The masks of all nodes once more, the last node first: where arcs lead on.
fn mask_downward(records: &[u8], notes: &[u8], masks: &mut [u16])
    requires noted { Noted records.now notes.now }
    requires masked { Masked records.now masks.old }
    ensures { Masked records.now masks.new }
{
    let mut v = records.len() / RECORD;
    while v > 0 {
        v -= 1;
        let mask = mask_of(records, notes, masks, v);
        masks[v] = mask;
    }
}

// How many values the numbers of a mask have together: no fewer than those of them that a path has not tested. Most masks have none, and
// to count bits takes long where the processor has no instruction for it.
fn value_count(mask: u16) -> usize
    ensures most { (care : ℕ) → 2 ^ untested_count mask care ≤ result }
    ensures small { result ≤ 65536 }
{
    if mask == 0 {
        return 1;
    }
    1 << u16::count_ones(mask)
}

// No node has more rows than its arcs have paths: none where it has no label of its own.
#[tactic(auto, using(crate::proofs::row_bounds::BoundSteps::node_bounds))]
fn bound_node(records: &[u8], notes: &[u8], masks: &[u16], v: usize) -> usize
    requires noted_at { NotedAt records.now notes.now v }
    requires masked { Masked records.now masks.now }
    ensures bounded { length (node_rows records.now v) ≤ result }
    ensures small { result ≤ 131072 }
{
    if notes[v] < 2 {
        return 0;
    }
    let low = value_count(masks[field(records, v, NEXT0) as usize]);
    if field(records, v, KIND) < CONDITION {
        return low;
    }
    low + value_count(masks[field(records, v, NEXT1) as usize])
}

// The sum of the bounds of all nodes.
#[tactic(auto, using(crate::proofs::row_bounds::BoundSteps::bounding))]
fn bound_nodes(records: &[u8], notes: &[u8], masks: &[u16]) -> usize
    requires noted { Noted records.now notes.now }
    requires masked { Masked records.now masks.now }
    ensures { length (rows records.now) ≤ result }
{
    let n = records.len() / RECORD;
    let mut total: usize = 0;
    for v in 0..n {
        total += bound_node(records, notes, masks, v);
    }
    total
}

/// A number of rows that an accepted chart does not exceed, by the notes on its nodes. No path is walked for it.
pub fn bound_rows(records: &[u8], notes: &[u8]) -> usize
    requires { Noted records.now notes.now }
    ensures { length (rows records.now) ≤ result }
{
    let mut masks = [65535u16; NODES];
    mask_upward(records, notes, &mut masks);
    mask_downward(records, notes, &mut masks);
    bound_nodes(records, notes, &masks)
}
