// The labels of an image, written as frames of ten bytes: 0 and 1, and those of the nodes that have one of their own.
ghost use Rattle.std.specs.Prelude.{◌≡◌, ◌+◌, ◌≤◌, length, if◌then◌else◌, ◌==◌};
ghost use Rattle.words.specs.lists.Sequences.{written};
ghost use Rattle.text.specs.frames.Frame.{size};
ghost use Rattle.image.specs.Image.{label_frame};
ghost use Rattle.chart_rows.specs.Labels.{stop_label};
ghost use Rattle.chart_rows.specs.inner.ChartContracts.{Inner, OfKind, Charted, AtNode};
ghost use Rattle.translator.specs.inner.LabelBytes.{fixed_bytes, node_label_bytes, up_to, Put};

use charts::field;
use charts::layout::*;
use image::layout::*;
use text::frames::put_bytes;
use text::frames::sizes::{FRAME, RECORD};

// The bytes of a mask behind its first.
const MASK1: usize = MASK + 1;

const MASK2: usize = MASK + 2;

const MASK3: usize = MASK + 3;

/// Labels 0 and 1, from `at` on.
pub fn put_fixed(out: &mut [u8], at: usize)
    requires { at + 20 ≤ length out.old }
    ensures { out.new ≡ written out.old at fixed_bytes }
{
    let home = [LABEL, 0, HOME, 0, 1, 0, 0, 0, 0, 0];
    put_bytes(out, at, &home);
    let back = [LABEL, 1, RETURN, 0, 0, 0, 0, 0, 0, 0];
    put_bytes(out, at + FRAME, &back);
}

// The label of an operation: with a call its kind is 1.
fn put_operation(records: &[u8], v: usize, label: u8, out: &mut [u8], at: usize)
    requires of_kind { OfKind records.now OPERATION v }
    requires room { at + FRAME ≤ length out.old }
    ensures { out.new ≡ written out.old at (label_frame label (stop_label records.now v)) }
{
    let called = field(records, v, ARGUMENT);
    let tick = call_kind(called);
    let owner = field(records, v, SCHEME);
    let result = field(records, v, RESULT);
    let mask0 = field(records, v, MASK);
    let mask1 = field(records, v, MASK1);
    let mask2 = field(records, v, MASK2);
    let mask3 = field(records, v, MASK3);
    let bytes = [
        LABEL, label, tick, called, owner, result, mask0, mask1, mask2, mask3,
    ];
    put_bytes(out, at, &bytes);
}

// The kind of an operation's tick: 1 with a call, else 0.
fn call_kind(called: u8) -> u8
    ensures { result ≡ (if called == 0 then PLAIN else OPERATION_CALL) }
{
    if called == 0 { PLAIN } else { OPERATION_CALL }
}

// The label of a stop: an operation's, a function's, or that of a Begin or a condition.
fn put_label(records: &[u8], v: usize, label: u8, out: &mut [u8], at: usize)
    requires inner { Inner records.now v }
    requires room { at + FRAME ≤ length out.old }
    ensures { out.new ≡ written out.old at (label_frame label (stop_label records.now v)) }
{
    let owner = field(records, v, SCHEME);
    match field(records, v, KIND) {
        OPERATION => put_operation(records, v, label, out, at),
        FUNCTION => {
            let called = field(records, v, ARGUMENT);
            let bytes = [LABEL, label, FUNCTION_CALL, called, owner, 0, 0, 0, 0, 0];
            put_bytes(out, at, &bytes);
        }
        _ => {
            let bytes = [LABEL, label, PLAIN, 0, owner, 0, 0, 0, 0, 0];
            put_bytes(out, at, &bytes);
        }
    }
}

// The label of a node, where it has one of its own; the offset after it.
fn put_node_label(records: &[u8], labels: &[u8], v: usize, out: &mut [u8], at: usize) -> usize
    requires at_node { AtNode records.now labels.now v }
    requires room { at + length (node_label_bytes records.now v) ≤ length out.old }
    ensures { Put out.old at (node_label_bytes records.now v) result out.new }
{
    let label = labels[v];
    if label < 2 {
        return at;
    }
    put_label(records, v, label, out, at);
    at + FRAME
}

/// The labels of all nodes that have one of their own, in frame order, from `at` on.
pub fn put_labels(records: &[u8], labels: &[u8], out: &mut [u8], at: usize)
    requires charted { Charted records.now labels.now }
    requires room { at + length (up_to (node_label_bytes records.now) (size records.now)) ≤ length out.old }
    ensures { out.new ≡ written out.old at
        (up_to (node_label_bytes records.now) (size records.now)) }
{
    let n = records.len() / RECORD;
    let mut place = at;
    for v in 0..n {
        place = put_node_label(records, labels, v, out, place);
    }
}
