// Marks on the nodes of a chart, spread over all arcs or over the arcs of conditions alone.
ghost use Rattle.std.specs.Prelude.{◌≡◌, ◌+◌, ◌*◌, ◌≤◌, ◌<◌, true, length, set, if◌then◌else◌};
ghost use Rattle.words.specs.graph.Reach.{is_marked, reach};
ghost use Rattle.words.specs.inner.Listed.{many, mark_all, listing, enlist_all};
ghost use Rattle.text.specs.frames.Frame.{size};
ghost use Rattle.charts.specs.Check.{arcs};
ghost use Rattle.charts.specs.inner.Marks.{arcs_by, kind_marks};
ghost use Rattle.chart_check.specs.inner.MarkContracts.{marks_swept_to, ListedRoom};

use charts::field;
use charts::layout::*;
use text::frames::sizes::RECORD;

// How many arcs of node v count.
fn arc_count(records: &[u8], conditions: bool, v: usize) -> usize
    requires { RECORD * v + RECORD ≤ length records.now }
    ensures { result ≡ length (arcs_by records.now conditions v) }
{
    let kind = field(records, v, KIND);
    if conditions {
        if kind != CONDITION {
            return 0;
        }
    }
    match kind {
        END => 0,
        CONDITION..=FUNCTION => 2,
        _ => 1,
    }
}

/// The nodes that the arcs of node v lead to are marked, and listed in their order where they were not; how many are listed then.
#[tactic(auto, using(crate::proofs::node_marks::MarkCases::arcs_told), unfolding(words::specs::inner::Listed::enlist_all))]
pub fn follow(
    records: &[u8],
    conditions: bool,
    v: usize,
    marks: &mut [bool],
    list: &mut [u8],
    count: usize,
) -> usize
    requires inside { v < size records.now }
    requires listed_room { ListedRoom records.now marks.old list.old count }
    ensures { listing marks.new list.new result ≡ enlist_all (listing marks.old list.old count)
        (arcs_by records.now conditions v) }
{
    let arcs = arc_count(records, conditions, v);
    if arcs == 0 {
        return count;
    }
    let first = words::graph::enlist(marks, list, count, field(records, v, NEXT0));
    if arcs == 1 {
        return first;
    }
    words::graph::enlist(marks, list, first, field(records, v, NEXT1))
}

/// Every node that arcs join from a marked one is marked; the first of the list are the marked ones. How many are marked then.
pub fn join(
    records: &[u8],
    conditions: bool,
    marks: &mut [bool],
    list: &mut [u8],
    count: usize,
) -> usize
    requires { ListedRoom records.now marks.old list.old count }
    ensures marks { marks.new ≡ reach (size records.now) (arcs_by records.now conditions)
        (size records.now) marks.old }
    ensures many { result ≡ many marks.new }
{
    let mut end = count;
    let mut i: usize = 0;
    while i < end {
        end = follow(records, conditions, list[i] as usize, marks, list, end);
        i += 1;
    }
    end
}

// Node u is marked, if it is one.
fn mark(marks: &mut [bool], u: usize)
    ensures { marks.new ≡ set marks.old u true }
{
    if u < marks.len() {
        marks[u] = true;
    }
}

// The nodes that the arcs of node v lead to are marked.
#[tactic(auto, using(crate::proofs::node_marks::MarkCases::arcs_told), unfolding(words::specs::inner::Listed::mark_all))]
fn mark_next(records: &[u8], v: usize, marks: &mut [bool])
    requires { v < size records.now }
    ensures { marks.new ≡ mark_all (arcs records.now v) marks.old }
{
    let arcs = arc_count(records, false, v);
    if arcs == 0 {
        return;
    }
    mark(marks, field(records, v, NEXT0) as usize);
    if arcs == 1 {
        return;
    }
    mark(marks, field(records, v, NEXT1) as usize);
}

// The same where node v is marked itself.
fn mark_on(records: &[u8], v: usize, marks: &mut [bool])
    requires inside { v < size records.now }
    requires mark_each { length marks.old ≡ size records.now }
    ensures { marks.new ≡ (if is_marked marks.old v
        then mark_all (arcs records.now v) marks.old else marks.old) }
{
    if !marks[v] {
        return;
    }
    mark_next(records, v, marks);
}

/// The arcs of each marked node are followed once, the lowest node first: a node that is marked on the way has its turn too, if it is a
/// higher one. Where to each node without a mark an arc leads from a lower one, all are marked then. What arcs join from the marks has not
/// changed. In a line of nodes `join` takes each from the list just after it was written there, and waits for it; here the next node is
/// known.
#[tactic(auto, using(crate::proofs::node_marks::Sweeps::sweeping))]
pub fn sweep(records: &[u8], marks: &mut [bool])
    requires { length marks.old ≡ size records.now }
    ensures { marks.new ≡ marks_swept_to records.now (size records.now) marks.old }
{
    let n = records.len() / RECORD;
    for v in 0..n {
        mark_on(records, v, marks);
    }
}

/// The nodes of a kind are marked, and no others.
pub fn mark_kind(records: &[u8], kind: u8, marks: &mut [bool])
    requires { length marks.old ≡ size records.now }
    ensures { marks.new ≡ kind_marks records.now kind }
{
    let n = records.len() / RECORD;
    for v in 0..n {
        marks[v] = field(records, v, KIND) == kind;
    }
}
