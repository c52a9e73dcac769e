// Refusal 9, nodes that no arcs join from the Begin of their scheme; 8 and 9 in turn.
ghost use Rattle.std.specs.Prelude.{◌≡◌, not, length, find};
ghost use Rattle.std.specs.List.{range_with_len};
ghost use Rattle.words.specs.graph.Reach.{is_marked, reach};
ghost use Rattle.text.specs.frames.Frame.{size};
ghost use Rattle.text.specs.frames.Answer.{reply, verdict_reply};
ghost use Rattle.charts.specs.Check.{arcs, is_cut_off};
ghost use Rattle.charts.specs.inner.Marks.{kind_marks};
ghost use Rattle.chart_check.specs.inner.MarkContracts.{NodeRoom};
ghost use Rattle.chart_check.specs.inner.CheckContracts.{Passed4To6, joined_verdict};

use crate::circles::lowest_circle;
use crate::node_marks::{join, mark_kind, sweep};
use charts::layout::BEGIN;
use text::frames::Refusal;
use text::frames::sizes::{NODES, RECORD};

// The nodes that arcs join from some Begin are marked; the lowest other one, if there is one. It is looked for only where not all are
// marked.
#[tactic(auto, using(crate::proofs::node_marks::MarkCases::apart))]
fn lowest_apart(records: &[u8], marks: &mut [bool], list: &mut [u8]) -> Option<usize>
    requires mark_each { length marks.old ≡ size records.now }
    requires node_room { NodeRoom records.now list.old }
    ensures marks { marks.new ≡ reach (size records.now) (arcs records.now) (size records.now)
        (kind_marks records.now BEGIN) }
    ensures lowest { result ≡ find (λ v. not (is_marked marks.new v)) (range_with_len 0 (size records.now)) }
{
    mark_kind(records, BEGIN, marks);
    sweep(records, marks);
    let count = words::graph::list_marked(marks, list);
    if count == marks.len() {
        return None;
    }
    let joined = join(records, false, marks, list, count);
    if joined == marks.len() {
        return None;
    }
    let lowest = words::graph::lowest_unmarked(marks);
    (lowest < marks.len()).then_some(lowest)
}

// The lowest node that 9 refuses, if there is one. Arcs stay within a scheme, so the marks of all Begins serve every scheme.
fn lowest_cut_off(records: &[u8], marks: &mut [bool], list: &mut [u8]) -> Option<usize>
    requires passed { Passed4To6 records.now }
    requires mark_each { length marks.old ≡ size records.now }
    requires node_room { NodeRoom records.now list.old }
    ensures { result ≡ find (is_cut_off records.now) (range_with_len 0 (size records.now)) }
{
    lowest_apart(records, marks, list)
}

// 8 and 9; marks and list serve both.
#[tactic(auto, using(crate::proofs::Found::judging))]
fn try_joined(records: &[u8], marks: &mut [bool], list: &mut [u8]) -> Result<usize, Refusal>
    requires passed { Passed4To6 records.now }
    requires mark_each { length marks.old ≡ size records.now }
    requires node_room { NodeRoom records.now list.old }
    ensures { reply result ≡ verdict_reply (joined_verdict records.now) 0 }
{
    if let Some(v) = lowest_circle(records, marks, list) {
        return Err(Refusal::Circle(v));
    }
    if let Some(v) = lowest_cut_off(records, marks, list) {
        return Err(Refusal::CutOff(v));
    }
    Ok(0)
}

/// Refusals 8 and 9 of nodes that 4, 5 and 6 pass, 8 before 9 for all nodes; each names the lowest such node. Counts 0.
pub fn check_joined(records: &[u8]) -> Result<usize, Refusal>
    requires { Passed4To6 records.now }
    ensures { reply result ≡ verdict_reply (joined_verdict records.now) 0 }
{
    let n = records.len() / RECORD;
    let mut marks = [false; NODES];
    let mut list = [0u8; NODES];
    try_joined(records, &mut marks[..n], &mut list)
}
