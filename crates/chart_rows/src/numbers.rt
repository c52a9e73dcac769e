// Notes on the nodes: their labels, and the numbers of the conditions that paths test.
ghost use Rattle.std.specs.Prelude.{◌≡◌, ◌*◌, ◌≤◌, length, map};
ghost use Rattle.words.specs.lists.Numbers.{range, count};
ghost use Rattle.words.specs.lists.Sequences.{written};
ghost use Rattle.text.specs.frames.Frame.{size};
ghost use Rattle.chart_rows.specs.Labels.{is_numbered, label};
ghost use Rattle.chart_rows.specs.inner.ChartContracts.{Ready, Charted, Inner};
ghost use Rattle.chart_rows.specs.inner.PathContracts.{Noted};
ghost use Rattle.chart_rows.specs.inner.NodeRows.{tested_number};

use crate::chart_labels::label_nodes;
use charts::field;
use charts::layout::{ARGUMENT, CONDITION, KIND};
use text::frames::sizes::{NODES, RECORD};

// The number of the condition that a path tests at a node. A condition with a label of its own ends a path.
#[tactic(auto, using(crate::proofs::NumberLaws::own_number))]
fn number_of(records: &[u8], v: usize, own: u8) -> u8
    requires inner { Inner records.now v }
    requires own_label { own ≡ label records.now v }
    ensures { result ≡ tested_number records.now v }
{
    if field(records, v, KIND) != CONDITION {
        return 16;
    }
    if own >= 2 {
        return 16;
    }
    field(records, v, ARGUMENT)
}

// Writes the numbers of all nodes behind their labels.
fn number_nodes(records: &[u8], notes: &mut [u8])
    requires charted { Charted records.now notes.old }
    requires room { 2 * NODES ≤ length notes.old }
    ensures noted { Noted records.now notes.new }
    ensures notes { notes.new ≡ written notes.old NODES
        (map (tested_number records.now) (range 0 (size records.now))) }
{
    let n = records.len() / RECORD;
    for v in 0..n {
        let number = number_of(records, v, notes[v]);
        notes[NODES + v] = number;
    }
}

/// Writes the notes on the nodes of an accepted chart: their labels from the first place on, and from place 256 on the number of the
/// condition that a path tests at each, 16 where a path ends; the rest of the buffer stays. How many nodes have a label of their own.
pub fn note_nodes(records: &[u8], notes: &mut [u8]) -> usize
    requires ready { Ready records.now }
    requires room { 2 * NODES ≤ length notes.old }
    ensures own { result ≡ count (is_numbered records.now) 0 (size records.now) }
    ensures noted { Noted records.now notes.new }
    ensures notes { notes.new ≡ written
        (written notes.old 0 (map (label records.now) (range 0 (size records.now)))) NODES
        (map (tested_number records.now) (range 0 (size records.now))) }
{
    let own = label_nodes(records, notes);
    number_nodes(records, notes);
    own
}
