// Marks on numbered nodes and how they spread over arcs.
ghost use Rattle.std.specs.Prelude.{◌≡◌, not, ◌≤◌, length};
ghost use Rattle.words.specs.lists.Numbers.{lowest};
ghost use Rattle.words.specs.lists.Sequences.{over};
ghost use Rattle.words.specs.graph.Reach.{is_marked};
ghost use Rattle.words.specs.inner.Listed.{many, listing, enlist, marked_nodes};

/// Whether node `u` has a mark; a number that is no node has none.
pub fn is_marked(marks: &[bool], u: usize) -> bool
    ensures { result ≡ is_marked marks.now u }
{
    if marks.len() <= u {
        return false;
    }
    marks[u]
}

/// Marks node `u`, if it is one, and lists it after the first `count` if it had no mark; hands back how many are listed then.
pub fn enlist(marks: &mut [bool], list: &mut [u8], count: usize, u: u8) -> usize
    requires room { length marks.old ≤ length list.old }
    requires counted { count ≡ many marks.old }
    ensures { listing marks.new list.new result ≡ enlist
        (listing marks.old list.old count) u }
{
    let v = u as usize;
    if marks.len() <= v {
        return count;
    }
    if marks[v] {
        return count;
    }
    marks[v] = true;
    list[count] = u;
    count + 1
}

/// Writes the marked nodes to the front of the list, the lowest first, and leaves the rest of it; hands back how many they are.
pub fn list_marked(marks: &[bool], list: &mut [u8]) -> usize
    requires room { length marks.now ≤ length list.old }
    requires few { length marks.now ≤ 256 }
    ensures listed { list.new ≡ over (marked_nodes marks.now) list.old }
    ensures counted { result ≡ many marks.now }
{
    let n = marks.len();
    let mut count: usize = 0;
    for v in 0..n {
        if marks[v] {
            list[count] = v as u8;
            count += 1;
        }
    }
    count
}

/// The lowest node without a mark, or the number of nodes.
pub fn lowest_unmarked(marks: &[bool]) -> usize
    ensures { result ≡ lowest (λ v. not (is_marked marks.now v)) 0 (length marks.now) }
{
    let mut u: usize = 0;
    while u < marks.len() {
        if !marks[u] {
            return u;
        }
        u += 1;
    }
    u
}
