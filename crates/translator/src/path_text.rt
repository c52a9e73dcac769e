// The rows of the paths on from a node, written as frames of ten bytes. Functions return the offset after what they wrote.
ghost use Rattle.std.specs.Prelude.{◌+◌, ◌≤◌, length};
ghost use Rattle.text.specs.frames.Frame.{size};
ghost use Rattle.image.specs.Image.{row_frame, row};
ghost use Rattle.chart_rows.specs.inner.PathContracts.{PathAt};
ghost use Rattle.chart_rows.specs.inner.NodeRows.{paths_from};
ghost use Rattle.translator.specs.inner.LabelBytes.{Put};
ghost use Rattle.translator.specs.inner.RowBytes.{rows_bytes};

use chart_rows::settle;
use charts::field;
use charts::layout::*;
use image::layout::ROW;
use text::frames::put_bytes;
use text::frames::sizes::{FRAME, NODES};
use words::bits::with_bit;

// One row; the offset after it.
fn put_row(out: &mut [u8], at: usize, from: u8, care: u16, values: u16, bit: u8, next: u8) -> usize
    requires { at + FRAME ≤ length out.old }
    ensures { Put out.old at (row_frame (row from care values bit next)) result out.new }
{
    let care0 = (care / 256) as u8;
    let care1 = (care % 256) as u8;
    let values0 = (values / 256) as u8;
    let values1 = (values % 256) as u8;
    let bytes = [ROW, from, care0, care1, values0, values1, bit, next, 0, 0];
    put_bytes(out, at, &bytes);
    at + FRAME
}

// The paths on from a node, the 0 side of each new condition first. A 0 side that ends at once is one row and needs no call.
fn put_forks(
    records: &[u8],
    notes: &[u8],
    node: u8,
    care: u16,
    values: u16,
    from: u8,
    bit: u8,
    out: &mut [u8],
    at: usize,
) -> usize
    requires path_at { PathAt records.now notes.now care values node }
    requires room { at + length (rows_bytes (paths_from (size records.now) records.now from bit care values node)) ≤ length out.old }
    ensures { Put out.old at
        (rows_bytes (paths_from (size records.now) records.now from bit care values node)) result out.new }
{
    let v = settle(records, notes, node, care, values) as usize;
    let i = notes[NODES + v];
    if i > 15 {
        return put_row(out, at, from, care, values, bit, notes[v]);
    }
    let tested = with_bit(care, i);
    let valued = with_bit(values, i);
    let low = field(records, v, NEXT0);
    let high = field(records, v, NEXT1);
    let end = low as usize;
    let place = if notes[NODES + end] > 15 {
        put_row(out, at, from, tested, values, bit, notes[end])
    } else {
        put_forks(records, notes, low, tested, values, from, bit, out, at)
    };
    put_forks(records, notes, high, tested, valued, from, bit, out, place)
}

/// The rows of the paths on from a node, with the care mask and the values of what they tested so far: one where it is a stop. They leave
/// label `from` with function bit `bit`, and are written to `out` from `at` on; the offset after them.
pub fn put_paths(
    records: &[u8],
    notes: &[u8],
    node: u8,
    care: u16,
    values: u16,
    from: u8,
    bit: u8,
    out: &mut [u8],
    at: usize,
) -> usize
    requires path_at { PathAt records.now notes.now care values node }
    requires room { at + length (rows_bytes (paths_from (size records.now) records.now from bit care values node)) ≤ length out.old }
    ensures { Put out.old at
        (rows_bytes (paths_from (size records.now) records.now from bit care values node)) result out.new }
{
    let v = node as usize;
    if notes[NODES + v] > 15 {
        return put_row(out, at, from, care, values, bit, notes[v]);
    }
    put_forks(records, notes, node, care, values, from, bit, out, at)
}
