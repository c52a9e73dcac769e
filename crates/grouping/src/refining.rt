// The grouping with fewest groups: for each label the lowest one of its class, in rounds that end where nothing changes.
ghost use Rattle.std.specs.Prelude.{◌≡◌, ◌≤◌};
ghost use Rattle.std.specs.List.{list_any, range_with_len};
ghost use Rattle.words.specs.lists.Sequences.{over};
ghost use Rattle.tables.specs.Table.{table_image};
ghost use Rattle.grouping.specs.Classes.{grouping};
ghost use Rattle.grouping.specs.inner.GroupingContracts.{Even, has_other_class};

use crate::first_classes::first_classes;
use crate::marking::mark_parted;
use crate::next_classes::refine;
use crate::parting::Round;
use state::State;
use tables::Table;
use text::frames::put_bytes;
use text::frames::sizes::LABELS;

// Whether the first n classes of two lists differ somewhere.
fn differ(classes: &[u8; LABELS], next: &[u8; LABELS], n: usize) -> bool
    requires { n ≤ LABELS }
    ensures { result ≡ list_any (has_other_class classes.now next.now) (range_with_len 0 n) }
{
    (0..n).any(|l| classes[l] != next[l])
}

/// The grouping of labels 0 to M of a prepared table, in the first places of the buffer; those behind them stay. At most as many rounds as
/// labels: where a round changes nothing, no later one does. The first round looks at all rows.
pub fn group(table: Table, classes: &mut [u8; LABELS])
    requires { Even table.bytes.now }
    ensures { classes.new ≡ over (grouping (table_image table.entry.bytes.now)) classes.old }
{
    // The buffers of next classes and of kept parts have the heads of tags and the links first.
    let mut next = [0u8; State::LABELS];
    let mut marks = [1u8; State::LABELS];
    let mut touched = [1u8; State::LABELS];
    let mut kept = [0u8; State::LABELS];
    first_classes(table, classes, &mut next, &mut kept);
    let n = (table.last as usize) + 1;
    for k in 0..n {
        let round = Round {
            table,
            classes,
            marks: &marks,
            touched: &touched,
        };
        refine(&round, &mut next);
        if !differ(classes, &next, n) {
            return;
        }
        mark_parted(table, classes, &next, &mut marks, &mut touched, &mut kept);
        put_bytes(classes, 0, &next[..n]);
    }
}
