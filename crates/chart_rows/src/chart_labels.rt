// Labels: which nodes of an accepted chart take a tick, the label of each node, and the Begin of each scheme.
ghost use Rattle.std.specs.Prelude.{◌≡◌, ◌+◌, ◌*◌, ◌<◌, ◌&&◌, not, map, length, ◌≤◌, ◌==◌};
ghost use Rattle.words.specs.lists.Numbers.{range, count};
ghost use Rattle.words.specs.lists.Sequences.{written};
ghost use Rattle.text.specs.frames.Frame.{field, size};
ghost use Rattle.charts.specs.Chart.{scheme, schemes, is, is_of, begin, next0};
ghost use Rattle.walk.specs.Stops.{is_stop};
ghost use Rattle.chart_rows.specs.Labels.{is_numbered, label};
ghost use Rattle.chart_rows.specs.inner.ChartContracts.{Ready, Beside};

use charts::field;
use charts::layout::*;
use text::frames::sizes::RECORD;

fn is_begin(records: &[u8], v: usize, scheme: u8) -> bool
    requires { RECORD * v + 1 < length records.now }
    ensures { result ≡ is_of records.now BEGIN scheme v }
{
    field(records, v, KIND) == BEGIN && field(records, v, SCHEME) == scheme
}

/// The Begin of a scheme of an accepted chart.
#[tactic(auto, using(crate::proofs::chart_labels::NodeSteps::begin_search))]
pub fn begin(records: &[u8], scheme: u8) -> usize
    requires { Ready records.now }
    ensures { result ≡ begin records.now scheme }
{
    let n = records.len() / RECORD;
    let mut v: usize = 0;
    while v < n {
        if is_begin(records, v, scheme) {
            return v;
        }
        v += 1;
    }
    v
}

/// Notes the Begin of each scheme of an accepted chart at the scheme's number; the other places stay. From the last node down: the
/// one noted last is the lowest.
pub fn note_begins(records: &[u8], begins: &mut [u8; 17])
    requires { Ready records.now }
    ensures { begins.new ≡ written begins.old 1 (map (begin records.now) (range 1 (schemes records.now))) }
{
    let mut v = records.len() / RECORD;
    while 0 < v {
        v -= 1;
        if field(records, v, KIND) == BEGIN {
            let scheme = field(records, v, SCHEME) as usize;
            begins[scheme] = v as u8;
        }
    }
}

// Whether a Begin of another scheme than 1 leads to a condition.
fn begin_stops(records: &[u8], v: usize) -> bool
    requires arc_inside { RECORD * v + 3 < length records.now }
    requires next_inside { RECORD * next0 records.now v < length records.now }
    ensures { result ≡ (not (scheme records.now v == 1)
        && is records.now CONDITION (next0 records.now v)) }
{
    let next = field(records, v, NEXT0) as usize;
    field(records, v, SCHEME) != 1 && field(records, next, KIND) == CONDITION
}

// Whether a node takes a tick; `first` is the node that the Begin of scheme 1 leads to.
#[tactic(auto, using(crate::proofs::chart_labels::NodeSteps::stopping))]
fn stops(records: &[u8], first: u8, v: usize) -> bool
    requires { Beside records.now first v }
    ensures { result ≡ is_stop records.now v }
{
    match field(records, v, KIND) {
        BEGIN => begin_stops(records, v),
        CONDITION => field(records, v, SCHEME) == 1 && first as usize == v,
        _ => true,
    }
}

/// Whether node `v` has a label of its own: it stops the walk and is no End. `first` is the node that the Begin of scheme 1 leads to.
pub fn is_numbered(records: &[u8], first: u8, v: usize) -> bool
    requires { Beside records.now first v }
    ensures { result ≡ is_numbered records.now v }
{
    stops(records, first, v) && field(records, v, KIND) != END
}

// The node that the Begin of scheme 1 leads to.
fn first_node(records: &[u8]) -> u8
    requires { Ready records.now }
    ensures { result ≡ next0 records.now (begin records.now 1) }
{
    let v = begin(records, 1);
    field(records, v, NEXT0)
}

// The label of a node, given how many nodes before it have one of their own.
#[tactic(auto, using(crate::proofs::chart_labels::LabelSteps::one_label))]
fn label_of(records: &[u8], first: u8, own: usize, v: usize) -> u8
    requires beside { Beside records.now first v }
    requires own_before { own ≡ count (is_numbered records.now) 0 v }
    ensures { result ≡ label records.now v }
{
    if is_numbered(records, first, v) {
        return (own + 2) as u8;
    }
    if field(records, v, SCHEME) == 1 {
        return 0;
    }
    1
}

/// Writes the label of each node of an accepted chart at its number; the rest of the buffer stays. How many nodes have one of their own.
pub fn label_nodes(records: &[u8], labels: &mut [u8]) -> usize
    requires ready { Ready records.now }
    requires room { size records.now ≤ length labels.old }
    ensures own { result ≡ count (is_numbered records.now) 0 (size records.now) }
    ensures labels { labels.new ≡ written labels.old 0
        (map (label records.now) (range 0 (size records.now))) }
{
    let first = first_node(records);
    let n = records.len() / RECORD;
    let mut own: usize = 0;
    for v in 0..n {
        let label = label_of(records, first, own, v);
        labels[v] = label;
        if label >= 2 {
            own += 1;
        }
    }
    own
}
