// Marks of the labels whose class was parted in a round. Of the parts of a class all labels but those of the largest part are marked,
// so that each time that a label is marked its class is at most half as large as before. Mostly each label that left its class is alone
// since: then the labels that stayed are the largest part, and nothing is counted.
ghost use Rattle.std.specs.Prelude.{◌≡◌, ◌≤◌, ◌<◌};
ghost use Rattle.std.specs.List.{list_any, range_with_len};
ghost use Rattle.grouping.specs.inner.Parts.{member_count, count_members, larger_part, keep_largest, mark_of, mark_others};
ghost use Rattle.grouping.specs.inner.Parts.{is_led_away, mark_left, PartsMarked};

use text::frames::sizes::LABELS;

// How many labels a class has with label l, up to 255: no class has so many.
fn member_count(counts: &[u8; LABELS], class: usize, l: usize) -> u8
    requires { class < LABELS }
    ensures { result ≡ member_count counts.now class l }
{
    if class == l {
        return 1;
    }
    let before = counts[class];
    if before < 255 {
        return before + 1;
    }
    before
}

// How many labels each class has, at its lowest one.
fn count_members(classes: &[u8; LABELS], counts: &mut [u8; LABELS], n: usize)
    requires { n ≤ LABELS }
    ensures { counts.new ≡ count_members classes.now n counts.old }
{
    for l in 0..n {
        let class = classes[l] as usize;
        counts[class] = member_count(counts, class, l);
    }
}

// Of the part that is kept so far for a former class and the part of label l the one with more labels, or the first.
fn larger_part(counts: &[u8; LABELS], kept: &[u8; LABELS], class: usize, l: usize, part: u8) -> u8
    requires { class < LABELS }
    ensures { result ≡ larger_part counts.now kept.now class l part }
{
    if class == l {
        return part;
    }
    let first = kept[class];
    if counts[first as usize] < counts[part as usize] {
        return part;
    }
    first
}

// For each former class the part with most labels, of several the lowest.
fn keep_largest(
    classes: &[u8; LABELS],
    next: &[u8; LABELS],
    counts: &[u8; LABELS],
    kept: &mut [u8; LABELS],
    n: usize,
)
    requires { n ≤ LABELS }
    ensures { kept.new ≡ keep_largest classes.now next.now counts.now n kept.old }
{
    for l in 0..n {
        let class = classes[l] as usize;
        kept[class] = larger_part(counts, kept, class, l, next[l]);
    }
}

// A label's mark: 2 where its part is not the one that is kept.
fn mark_of(part: u8, kept: u8) -> u8
    ensures { result ≡ mark_of part kept }
{
    if part == kept {
        return 0;
    }
    2
}

// Marks each label by the part that is kept of its former class.
fn mark(
    classes: &[u8; LABELS],
    next: &[u8; LABELS],
    kept: &[u8; LABELS],
    marks: &mut [u8; LABELS],
    n: usize,
)
    requires { n ≤ LABELS }
    ensures { marks.new ≡ mark_others classes.now next.now kept.now n marks.old }
{
    for l in 0..n {
        let class = classes[l] as usize;
        marks[l] = mark_of(next[l], kept[class]);
    }
}

// Whether some label left its class and is not the lowest of its next one.
fn is_any_led_away(classes: &[u8; LABELS], next: &[u8; LABELS], n: usize) -> bool
    requires { n ≤ LABELS }
    ensures { result ≡ list_any (is_led_away classes.now next.now) (range_with_len 0 n) }
{
    (0..n).any(|l| next[l] != classes[l] && next[l] as usize != l)
}

// Marks each label that left its class.
fn mark_left(classes: &[u8; LABELS], next: &[u8; LABELS], marks: &mut [u8; LABELS], n: usize)
    requires { n ≤ LABELS }
    ensures { marks.new ≡ mark_left classes.now next.now n marks.old }
{
    for l in 0..n {
        marks[l] = mark_of(next[l], classes[l]);
    }
}

/// The marks of labels below n by the classes before a round and after it.
pub fn mark_parts(
    classes: &[u8; LABELS],
    next: &[u8; LABELS],
    marks: &mut [u8; LABELS],
    counts: &mut [u8; LABELS],
    kept: &mut [u8; LABELS],
    n: usize,
)
    requires { n ≤ LABELS }
    ensures { PartsMarked classes.now next.now marks.old counts.old kept.old n marks.new counts.new kept.new }
{
    if !is_any_led_away(classes, next, n) {
        mark_left(classes, next, marks, n);
        return;
    }
    count_members(next, counts, n);
    keep_largest(classes, next, counts, kept, n);
    mark(classes, next, kept, marks, n);
}
