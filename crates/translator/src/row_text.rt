// The rows of all labels, written as frames of ten bytes. Functions return the offset after what they wrote.
ghost use Rattle.std.specs.Prelude.{◌+◌, ◌≤◌, length};
ghost use Rattle.text.specs.frames.Frame.{size};
ghost use Rattle.chart_rows.specs.Labels.{label};
ghost use Rattle.chart_rows.specs.inner.PathContracts.{Noted, NotedAt, SidesAt};
ghost use Rattle.translator.specs.inner.RowBytes.{rows_bytes};
ghost use Rattle.translator.specs.inner.NodeBytes.{node_rows_bytes};
ghost use Rattle.chart_rows.specs.inner.NodeRows.{sides};
ghost use Rattle.translator.specs.inner.LabelBytes.{up_to, Put};

use crate::path_text::put_paths;
use charts::field;
use charts::layout::*;
use image::layout::NO_BIT;
use text::frames::sizes::RECORD;
use words::bits::with_bit;

// The paths on from the two arcs of a node.
fn put_sides(
    records: &[u8],
    notes: &[u8],
    v: usize,
    care: u16,
    values: u16,
    first: u8,
    second: u8,
    out: &mut [u8],
    at: usize,
) -> usize
    requires sides_at { SidesAt records.now notes.now care values v }
    requires room { at + length (rows_bytes (sides records.now (label records.now v) first second care values v)) ≤ length out.old }
    ensures { Put out.old at
        (rows_bytes (sides records.now (label records.now v) first second care values v)) result out.new }
{
    let from = notes[v];
    let next0 = field(records, v, NEXT0);
    let next1 = field(records, v, NEXT1);
    let mid = put_paths(records, notes, next0, care, 0, from, first, out, at);
    put_paths(records, notes, next1, care, values, from, second, out, mid)
}

// The rows of a node: none where it has no label of its own.
fn put_node(records: &[u8], notes: &[u8], v: usize, out: &mut [u8], at: usize) -> usize
    requires noted_at { NotedAt records.now notes.now v }
    requires room { at + length (node_rows_bytes records.now v) ≤ length out.old }
    ensures { Put out.old at (node_rows_bytes records.now v) result out.new }
{
    let from = notes[v];
    if from < 2 {
        return at;
    }
    match field(records, v, KIND) {
        BEGIN..=OPERATION => put_paths(
            records,
            notes,
            field(records, v, NEXT0),
            0,
            0,
            from,
            NO_BIT,
            out,
            at,
        ),
        CONDITION => {
            let own = with_bit(0, field(records, v, ARGUMENT));
            put_sides(records, notes, v, own, own, NO_BIT, NO_BIT, out, at)
        }
        _ => put_sides(records, notes, v, 0, 0, 0, 1, out, at),
    }
}

/// The rows of all nodes, in frame order, from `at` on; the offset after them.
pub fn put_rows(records: &[u8], notes: &[u8], out: &mut [u8], at: usize) -> usize
    requires noted { Noted records.now notes.now }
    requires room { at + length (up_to (node_rows_bytes records.now) (size records.now)) ≤ length out.old }
    ensures { Put out.old at (up_to (node_rows_bytes records.now) (size records.now))
        result out.new }
{
    let n = records.len() / RECORD;
    let mut place = at;
    for v in 0..n {
        place = put_node(records, notes, v, out, place);
    }
    place
}
