// What begins no accepted chart: a second End, an arc to a Begin, conditions on a circle, nodes that the Begin does not lead to. All of it
// is told by sets of nodes, which have a bit for each.
ghost use Rattle.std.specs.Prelude.{◌≡◌, ◌≤◌, ◌<◌};
ghost use Rattle.little_charts.specs.inner.Search.{node_count};
ghost use Rattle.little_fetch.specs.inner.Trails.{arcs_by, arcs_from, reached, led_to, is_barred, with_node, is_cut_off};

/// What is kept of the records so far: their numbers, five bits each, the last one's lowest; where the arcs of each node lead, four bits
/// each; which node is the Begin, which the End, and which are conditions.
#[derive(Clone, Copy)]
pub struct Trail {
    pub numbers: u32,
    pub arcs: u16,
    pub begin: u8,
    pub end: u8,
    pub conditions: u8,
}

// The nodes that arcs of node u lead to, where it is in the set.
fn arcs_by(arcs: u16, set: u8, u: u8) -> u8
    requires { u < 4 }
    ensures { result ≡ arcs_by arcs set u }
{
    if (set >> u) % 2 == 0 {
        return 0;
    }
    ((arcs >> (4 * u)) % 16) as u8
}

// The nodes that arcs of a set's nodes lead to.
#[tactic(auto, unfolding(crate::specs::inner::Trails::arcs_from))]
fn arcs_from(arcs: u16, set: u8) -> u8
    ensures { result ≡ arcs_from arcs set }
{
    arcs_by(arcs, set, 0) | arcs_by(arcs, set, 1) | arcs_by(arcs, set, 2) | arcs_by(arcs, set, 3)
}

// A set's nodes and those that at most three arcs, one after the other, lead to from them.
#[tactic(auto, unfolding(crate::specs::inner::Trails::reached))]
fn reached(arcs: u16, set: u8) -> u8
    ensures { result ≡ reached arcs set }
{
    let one = set | arcs_from(arcs, set);
    let two = one | arcs_from(arcs, one);
    two | arcs_from(arcs, two)
}

/// The nodes that record `i` leads to, in a chart of `n` frames, 1 to 4, as a set: bit v for node v.
#[tactic(auto, unfolding(crate::specs::inner::Trails::led_to))]
pub fn led_to(n: usize, i: usize) -> u8
    requires some { 1 ≤ n }
    requires few { n ≤ 4 }
    requires number { i < node_count n }
    ensures { result ≡ led_to n i }
{
    if i < n {
        return 1 << i;
    }
    if i == n {
        return 0;
    }
    if i < 3 * n + 1 {
        return 1 << ((i - (n + 1)) / 2);
    }
    let j = i - (3 * n + 1);
    (1 << (j / n)) | (1 << (j % n))
}

/// Whether record `i`, which leads to the nodes `led`, clashes at place `v` with the records before it.
#[tactic(auto, unfolding(crate::specs::inner::Trails::is_barred))]
pub fn is_barred(n: usize, v: usize, trail: Trail, i: usize, led: u8) -> bool
    requires few { n ≤ 4 }
    requires inside { v < n }
    ensures { result ≡ is_barred n v trail i led }
{
    let own: u8 = 1 << v;
    if i < n {
        return (led | arcs_from(trail.arcs, 15)) & own != 0;
    }
    if i == n {
        return trail.end != 0;
    }
    if i < 3 * n + 1 {
        return led & trail.begin != 0;
    }
    led & (trail.begin | own) != 0 || arcs_from(trail.arcs, led & trail.conditions) & own != 0
}

/// What is kept once record `i`, which leads to the nodes `led`, stands at place `v`.
#[tactic(auto, unfolding(crate::specs::inner::Trails::with_node))]
pub fn with_node(n: usize, v: usize, trail: Trail, i: usize, led: u8) -> Trail
    requires few { n ≤ 4 }
    requires inside { v < n }
    requires number { i < 32 }
    ensures { result ≡ with_node n v trail i led }
{
    let own: u8 = 1 << v;
    Trail {
        numbers: trail.numbers << 5 | i as u32,
        arcs: trail.arcs | (led as u16) << (4 * v),
        begin: if i < n { own } else { trail.begin },
        end: if i == n { own } else { trail.end },
        conditions: if 3 * n < i {
            trail.conditions | own
        } else {
            trail.conditions
        },
    }
}

/// Whether there is a Begin, the nodes that it leads to all stand at places up to `v`, and some node is none of them.
#[tactic(auto, unfolding(crate::specs::inner::Trails::is_cut_off))]
pub fn is_cut_off(n: usize, v: usize, trail: Trail) -> bool
    requires few { n ≤ 4 }
    requires inside { v < n }
    ensures { result ≡ is_cut_off n v trail }
{
    if trail.begin == 0 {
        return false;
    }
    let all = reached(trail.arcs, trail.begin);
    all < 1 << (v + 1) && all + 1 < 1 << n
}
