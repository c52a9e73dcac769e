// The numbers of the groups, in the order of their lowest members, and how many rows are kept.
ghost use Rattle.std.specs.Prelude.{◌≡◌, ◌-◌, ◌≤◌, ◌<◌, count_by, if◌then◌else◌, slice_index};
ghost use Rattle.std.specs.List.{range_with_len};
ghost use Rattle.words.specs.lists.Numbers.{count};
ghost use Rattle.words.specs.lists.Sequences.{over};
ghost use Rattle.text.specs.frames.Frame.{size, field};
ghost use Rattle.grouping.specs.Classes.{is_first};
ghost use Rattle.minimising.specs.inner.NumberContracts.{LowestOfClass, group_numbers};

use image::byte;
use image::layout::FROM;
use text::frames::sizes::LABELS;

// 1 for a label that is the lowest of its class, else 0.
fn first_at(classes: &[u8; LABELS], l: usize) -> usize
    requires { l < LABELS }
    ensures one { result ≡ (if is_first classes.now l then 1 else 0) }
    ensures most { result ≤ 1 }
{
    if classes[l] as usize == l {
        return 1;
    }
    0
}

// The number of label l's group: a new one for the lowest of its class, else the one that this label has.
fn number_at(classes: &[u8; LABELS], numbers: &[u8; LABELS], l: usize, new: usize) -> u8
    requires inside { l < LABELS }
    requires new_small { new ≤ l }
    ensures { result ≡ (if is_first classes.now l then new else slice_index numbers.now (slice_index classes.now l)) }
{
    let class = classes[l] as usize;
    if class == l {
        return new as u8;
    }
    numbers[class]
}

/// Writes the numbers of the groups of labels 0 to n - 1 to the first places of the buffer; those behind them stay. The answer is how many
/// groups there are.
pub fn number_groups(classes: &[u8; LABELS], numbers: &mut [u8; LABELS], n: usize) -> usize
    requires few { n ≤ LABELS }
    requires lowest_of_class { LowestOfClass classes.now n }
    ensures numbered { numbers.new ≡ over (group_numbers classes.now n) numbers.old }
    ensures counted { result ≡ count (is_first classes.now) 0 n }
    ensures most { result ≤ n }
{
    let mut groups: usize = 0;
    for l in 0..n {
        numbers[l] = number_at(classes, numbers, l, groups);
        groups += first_at(classes, l);
    }
    groups
}

/// How many rows in frames from first up to end are of labels that are the lowest of their classes.
pub fn count_kept(table: &[u8], classes: &[u8; LABELS], first: usize, end: usize) -> usize
    requires in_order { first ≤ end }
    requires inside { end ≤ size table.now }
    ensures counted { result ≡ count_by (λ f. is_first classes.now (field table.now f FROM)) (range_with_len first (end - first)) }
    ensures most { result ≤ end - first }
{
    (first..end)
        .filter(|f| {
            let from = byte(table, *f, FROM);
            classes[from as usize] == from
        })
        .count()
}
