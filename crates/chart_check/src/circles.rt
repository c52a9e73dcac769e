// Refusal 8: a circle of conditions.
ghost use Rattle.std.specs.Prelude.{◌≡◌, ◌<◌, length, find};
ghost use Rattle.std.specs.List.{range_with_len};
ghost use Rattle.words.specs.graph.Reach.{is_marked, nodes_joined_from};
ghost use Rattle.text.specs.frames.Frame.{size};
ghost use Rattle.charts.specs.Check.{arcs, condition_arcs, is_on_circle};
ghost use Rattle.chart_check.specs.inner.MarkContracts.{NodeRoom, Blank};
ghost use Rattle.chart_check.specs.inner.FinishContracts.{DepthFirst};

use crate::finishing::finish_all;
use crate::node_marks::{follow, join, mark_kind};
use charts::field;
use charts::layout::{CONDITION, KIND};
use text::frames::sizes::{NODES, RECORD};

// The nodes that arcs of conditions join from the next nodes of v are marked; whether v is one of them.
fn leads_back(records: &[u8], v: usize, marks: &mut [bool], list: &mut [u8]) -> bool
    requires inside { v < size records.now }
    requires blank { Blank records.now marks.old list.old }
    ensures marks { marks.new ≡ nodes_joined_from (size records.now) (condition_arcs records.now)
        (arcs records.now v) }
    ensures led_back { result ≡ is_marked marks.new v }
{
    let count = follow(records, false, v, marks, list, 0);
    join(records, true, marks, list, count);
    marks[v]
}

// 8: node v is a condition on a circle of conditions.
fn on_circle(records: &[u8], v: usize, list: &mut [u8]) -> bool
    requires inside { v < size records.now }
    requires node_room { NodeRoom records.now list.old }
    ensures { result ≡ is_on_circle records.now v }
{
    let n = records.len() / RECORD;
    let mut marks = [false; NODES];
    field(records, v, KIND) == CONDITION && leads_back(records, v, &mut marks[..n], list)
}

// The lowest node on a circle, if there is one. A finished node is on none, so only the others are tried.
#[tactic(auto, using(crate::proofs::Found::searching))]
fn search_circle(records: &[u8], unfinished: &[bool], list: &mut [u8]) -> Option<usize>
    requires { DepthFirst records.now unfinished.now list.old }
    ensures { result ≡ find (is_on_circle records.now) (range_with_len 0 (size records.now)) }
{
    for v in 0..unfinished.len() {
        if unfinished[v] && on_circle(records, v, list) {
            return Some(v);
        }
    }
    None
}

/// The lowest node that 8 refuses, if there is one: at first all conditions are unfinished, then a search finishes what it can. The list
/// serves both as the path and for marks.
pub fn lowest_circle(records: &[u8], unfinished: &mut [bool], list: &mut [u8]) -> Option<usize>
    requires mark_each { length unfinished.old ≡ size records.now }
    requires node_room { NodeRoom records.now list.old }
    ensures { result ≡ find (is_on_circle records.now) (range_with_len 0 (size records.now)) }
{
    mark_kind(records, CONDITION, unfinished);
    finish_all(records, unfinished, list);
    search_circle(records, unfinished, list)
}
