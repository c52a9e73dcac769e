// The rows of all labels, counted up to a limit.
ghost use Rattle.std.specs.Prelude.{◌≡◌, ℕ, min, length};
ghost use Rattle.chart_rows.specs.Rows.{rows};
ghost use Rattle.chart_rows.specs.inner.PathContracts.{Noted, NotedAt, SidesAt};
ghost use Rattle.chart_rows.specs.inner.NodeRows.{sides, node_rows};

use crate::paths::count_paths;
use charts::field;
use charts::layout::*;
use text::frames::sizes::RECORD;
use words::bits::with_bit;

// How many paths go on from the two arcs of a node.
fn count_sides(records: &[u8], notes: &[u8], v: usize, care: u16, values: u16, most: usize) -> usize
    requires { SidesAt records.now notes.now care values v }
    ensures { (l f g : ℕ) → result ≡ min most (length (sides records.now l f g care values v)) }
{
    let low = count_paths(records, notes, field(records, v, NEXT0), care, 0, most);
    low + count_paths(
        records,
        notes,
        field(records, v, NEXT1),
        care,
        values,
        most - low,
    )
}

// How many rows a node has: none where it has no label of its own.
fn count_node(records: &[u8], notes: &[u8], v: usize, most: usize) -> usize
    requires { NotedAt records.now notes.now v }
    ensures { result ≡ min most (length (node_rows records.now v)) }
{
    if notes[v] < 2 {
        return 0;
    }
    match field(records, v, KIND) {
        BEGIN..=OPERATION => count_paths(records, notes, field(records, v, NEXT0), 0, 0, most),
        CONDITION => {
            let own = with_bit(0, field(records, v, ARGUMENT));
            count_sides(records, notes, v, own, own, most)
        }
        _ => count_sides(records, notes, v, 0, 0, most),
    }
}

/// How many rows the labels of an accepted chart have in all, or `most` where there are more.
#[tactic(auto, using(crate::proofs::RowSteps::row_counting))]
pub fn count_rows(records: &[u8], notes: &[u8], most: usize) -> usize
    requires { Noted records.now notes.now }
    ensures { result ≡ min most (length (rows records.now)) }
{
    let n = records.len() / RECORD;
    let mut total: usize = 0;
    for v in 0..n {
        let more = count_node(records, notes, v, most - total);
        total += more;
    }
    total
}
