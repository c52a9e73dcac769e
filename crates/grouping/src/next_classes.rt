// The classes one round later: for each label the lowest one of its next class.
ghost use Rattle.std.specs.Prelude.{◌≡◌, ◌-◌, ◌≤◌, ◌<◌, find, unwrap_or, slice_index};
ghost use Rattle.std.specs.List.{range_with_len};
ghost use Rattle.grouping.specs.inner.GroupingContracts.{Even, Refined, OneMore, Lowest, is_class_leader};

use crate::parting::Round;
use text::frames::sizes::LABELS;

// Whether label m, below l, is of the same class, the lowest of its next class, and not parted from l.
fn leads_class(round: &Round, next: &[u8; LABELS], m: usize, l: usize) -> bool
    requires low { 2 ≤ m }
    requires below { m < l }
    requires high { l ≤ round.now.table.last }
    ensures { result ≡ is_class_leader round.now.table.bytes.now round.now.classes.now next.now l m }
{
    round.classes[m] == round.classes[l] && next[m] as usize == m && !round.are_parted(m, l)
}

// The lowest label below l of its next class, if there is one: l is of 2 to M, and so are the labels of its class. Whether labels stay
// together is an equivalence where 23 does not apply, so only the lowest of each next class is compared, from the lowest of l's class on.
fn class_leader(round: &Round, next: &[u8; LABELS], l: usize) -> Option<usize>
    requires low { 2 ≤ slice_index round.now.classes.now l }
    requires high { l ≤ round.now.table.last }
    ensures { result ≡ find (is_class_leader round.now.table.bytes.now round.now.classes.now next.now l)
        (range_with_len (slice_index round.now.classes.now l) (l - slice_index round.now.classes.now l)) }
{
    (round.classes[l] as usize..l).find(|m| leads_class(round, next, *m, l))
}

// The lowest label of label l's next class. Mostly neither l nor the lowest label of its class has a row to a marked label, so that they stay
// together.
fn next_class(round: &Round, next: &[u8; LABELS], l: usize) -> u8
    requires low { 2 ≤ slice_index round.now.classes.now l }
    requires high { l ≤ round.now.table.last }
    requires lowest { Lowest round.now.classes.now next.now l }
    ensures { result ≡ unwrap_or (find (is_class_leader round.now.table.bytes.now round.now.classes.now next.now l)
        (range_with_len (slice_index round.now.classes.now l) (l - slice_index round.now.classes.now l))) l }
{
    let class = round.classes[l];
    if round.touched[l] == 0 && round.touched[class as usize] == 0 {
        return class;
    }
    class_leader(round, next, l).unwrap_or(l) as u8
}

/// One round: the next classes of labels 0 to M, in the first places of the buffer; those behind them stay. Labels 0 and 1 are alone in their
/// classes.
pub fn refine(round: &Round, next: &mut [u8; LABELS])
    requires even { Even round.now.table.bytes.now }
    requires refined { Refined round.now.table.bytes.now round.now.classes.now }
    ensures { OneMore round.now.table.bytes.now round.now.classes.now next.old next.new }
{
    let last = round.table.last as usize;
    next[0] = 0;
    next[1] = 1;
    for l in 2..last + 1 {
        next[l] = next_class(round, next, l);
    }
}
