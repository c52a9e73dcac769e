// Which rows the next round need look at: those of labels with a row to a label that the round before marked.
ghost use Rattle.std.specs.Prelude.{◌≡◌, ◌<◌};
ghost use Rattle.text.specs.declared.frames.sizes.TheConstants.{LABELS};
ghost use Rattle.grouping.specs.inner.GroupingContracts.{Even, Advanced};
ghost use Rattle.grouping.specs.inner.Touches.{raised, notes, RoundMarked};

use crate::marked_parts::mark_parts;
use image::layout::{FROM, NEXT};
use image::{byte, rows_from};
use tables::Table;
use text::frames::sizes::LABELS;

// Raises a label's note to a mark.
fn raise(touched: &mut [u8; LABELS], label: usize, mark: u8)
    requires { label < LABELS }
    ensures { touched.new ≡ raised touched.old label mark }
{
    if touched[label] < mark {
        touched[label] = mark;
    }
}

// Notes at each label the highest mark of those that its rows lead to, row by row: 0 where none is marked.
fn touch(table: Table, marks: &[u8; LABELS], touched: &mut [u8; LABELS])
    requires { Even table.bytes.now }
    ensures { touched.new ≡ notes table.entry.bytes.now marks.now }
{
    *touched = [0u8; LABELS];
    let frames = table.frames as usize;
    for f in rows_from(table.bytes)..frames {
        let label = byte(table.bytes, f, FROM) as usize;
        let next = byte(table.bytes, f, NEXT) as usize;
        raise(touched, label, marks[next]);
    }
}

/// The marks after a round, by the classes before it and after it. The buffer of notes has the counts first.
pub fn mark_parted(
    table: Table,
    classes: &[u8; LABELS],
    next: &[u8; LABELS],
    marks: &mut [u8; LABELS],
    touched: &mut [u8; LABELS],
    kept: &mut [u8; LABELS],
)
    requires even { Even table.bytes.now }
    requires advanced { Advanced table.bytes.now classes.now next.now }
    ensures { RoundMarked table.entry.bytes.now classes.now next.now marks.old touched.old kept.old
        marks.new touched.new kept.new }
{
    let n = (table.last as usize) + 1;
    mark_parts(classes, next, marks, touched, kept, n);
    touch(table, marks, touched);
}
