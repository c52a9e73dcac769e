// Conditions on no circle, by a depth-first search: one is finished once no arc of it leads to an unfinished one.
ghost use Rattle.std.specs.Prelude.{◌≡◌, ◌<◌, [], ◌∷◌, find};
ghost use Rattle.words.specs.graph.Reach.{is_marked};
ghost use Rattle.text.specs.frames.Frame.{size};
ghost use Rattle.charts.specs.Chart.{next0, next1};
ghost use Rattle.charts.specs.inner.Finished.{Finished};
ghost use Rattle.chart_check.specs.inner.FinishContracts.{DepthFirst};

use charts::field;
use charts::layout::{NEXT0, NEXT1};

// The next node of condition v that is unfinished, the one on a 0 first, if one is.
fn next_unfinished(records: &[u8], unfinished: &[bool], v: usize) -> Option<usize>
    requires { v < size records.now }
    ensures { result ≡ find (is_marked unfinished.now) (next0 records.now v ∷ next1 records.now v ∷ []) }
{
    let next0 = field(records, v, NEXT0) as usize;
    if words::graph::is_marked(unfinished, next0) {
        return Some(next0);
    }
    let next1 = field(records, v, NEXT1) as usize;
    words::graph::is_marked(unfinished, next1).then_some(next1)
}

// The path goes on from node v as long as an unfinished node is next; where none is, the node is finished and the path goes back by one.
// It ends where v is finished, or after as many steps onward as there are nodes, which only a circle allows.
fn finish_from(records: &[u8], unfinished: &mut [bool], path: &mut [u8], v: usize)
    requires inside { v < size records.now }
    requires depth_first { DepthFirst records.now unfinished.old path.old }
    ensures { Finished records.now unfinished.new }
{
    let mut left = unfinished.len();
    let mut depth: usize = 0;
    let mut at = v;
    while 0 < left {
        match next_unfinished(records, unfinished, at) {
            Some(next) => {
                path[depth] = at as u8;
                depth += 1;
                left -= 1;
                at = next;
            }
            None => {
                unfinished[at] = false;
                if depth == 0 {
                    return;
                }
                depth -= 1;
                at = path[depth] as usize;
            }
        }
    }
}

/// Conditions are finished, the lowest first, up to one that leads to a circle.
pub fn finish_all(records: &[u8], unfinished: &mut [bool], path: &mut [u8])
    requires { DepthFirst records.now unfinished.old path.old }
    ensures { Finished records.now unfinished.new }
{
    for v in 0..unfinished.len() {
        if unfinished[v] {
            finish_from(records, unfinished, path, v);
            if unfinished[v] {
                return;
            }
        }
    }
}
