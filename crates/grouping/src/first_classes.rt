// The classes before the first round: labels that hold the same. Each label has a tag, a byte made of all that it holds, and is linked with
// the highest label below it that has the same tag: others are not compared with it.
ghost use Rattle.std.specs.Prelude.{◌≡◌, ◌+◌, ◌≤◌, replicate};
ghost use Rattle.tables.specs.inner.Labels.{as_label};
ghost use Rattle.grouping.specs.Classes.{has_same_fields};
ghost use Rattle.grouping.specs.inner.GroupingContracts.{classes_over};
ghost use Rattle.grouping.specs.inner.Links.{tag_of, tag_on, first_same, FirstSame, Headed, Highest, Linked};

use tables::{Label, Table};
use text::frames::sizes::LABELS;

/// An odd number near 2^32 over the golden ratio: times it, each bit of a number reaches the top byte.
pub const SPREAD: u32 = 2654435769;

/// What the top byte counts.
pub const TOP_BYTE: u32 = 16777216;

// Whether two labels hold the same.
fn is_same(x: Label, y: Label) -> bool
    ensures { result ≡ has_same_fields (as_label x) (as_label y) }
{
    x.kind == y.kind
        && x.called == y.called
        && x.owner == y.owner
        && x.result == y.result
        && x.mask == y.mask
}

// The tag of a label: the top byte of a product; each bit of the label's fields counts.
#[tactic(auto, unfolding(crate::specs::inner::Links::tag_of))]
fn tag_of(x: Label) -> u8
    ensures { result ≡ tag_of (as_label x) }
{
    // What there is beside the mask, one behind the other: schemes are below 32, results below 4.
    let schemes = (x.kind as u32) * 1024 + (x.called as u32) * 32 + (x.owner as u32);
    let rest = schemes * 4 + (x.result as u32);
    let mixed = u32::wrapping_mul(u32::wrapping_add(x.mask, rest), SPREAD);
    (mixed / TOP_BYTE) as u8
}

// The lowest label that holds the same as label l: one of those below l that have its tag, which are tried along the links from the highest on,
// or l.
fn class_along(
    table: Table,
    classes: &[u8; LABELS],
    links: &[u8; LABELS],
    highest: u8,
    l: usize,
) -> u8
    requires low { 1 ≤ l }
    requires high { l ≤ table.last }
    requires first { FirstSame table.bytes.now l classes.now }
    requires linked { Linked table.bytes.now l links.now }
    requires highest { Highest table.bytes.now l (tag_on table.bytes.now l) highest }
    ensures { result ≡ first_same table.entry.bytes.now l }
{
    let label = table.label(l as u8);
    let mut m = highest as usize;
    while m != 0 {
        if is_same(table.label(m as u8), label) {
            return classes[m];
        }
        m = links[m] as usize;
    }
    l as u8
}

/// For labels 0 to M the lowest that holds the same, in the first places of the buffer; those behind them stay. Lent beside it are a buffer
/// that is all 0, for the highest label with each tag, and one for the links. Home, label 0, is alone, so that 0 stands for none.
pub fn first_classes(
    table: Table,
    classes: &mut [u8; LABELS],
    heads: &mut [u8; LABELS],
    links: &mut [u8; LABELS],
)
    requires { heads.old ≡ replicate LABELS 0 }
    ensures first { classes.new ≡ classes_over table.entry.bytes.now 0 classes.old }
    ensures headed { Headed table.entry.bytes.now (table.entry.last + 1) heads.new }
    ensures linked { Linked table.entry.bytes.now (table.entry.last + 1) links.new }
{
    classes[0] = 0;
    for l in 1..(table.last as usize) + 1 {
        let tag = tag_of(table.label(l as u8)) as usize;
        classes[l] = class_along(table, classes, links, heads[tag], l);
        links[l] = heads[tag];
        heads[tag] = l as u8;
    }
}
