// How the runs of all lists of words end, counted on a prepared table: lists that share a beginning share its ticks.
ghost use Rattle.std.specs.Prelude.{◌≡◌, ◌*◌, ◌^◌, ◌≤◌, false};
ghost use Rattle.tables.specs.Table.{table_image};
ghost use Rattle.state.specs.Kept.{view};
ghost use Rattle.fitness.specs.Fitness.{has_bad_depth};
ghost use Rattle.fillings.specs.Counts.{lists};
ghost use Rattle.fillings.specs.inner.TallyContracts.{tally_of, tally_sum, tally_times, FewMore};
ghost use Rattle.fillings.specs.inner.Forks.{fork};

use crate::fill_counts::{Tally, add_lists, power, tally_last};
use runs::tick_word;
use state::State;
use tables::Table;
use ticks::leaving::{Leaving, leaving_of};

// How a tick forks: for how many words it is made, and for how many lists each of them stands.
#[derive(Drop)]
struct Fork {
    words: u32,
    each: u32,
}

// Where a tick takes no row, one word stands for all.
fn fork_of(leaving: Option<Leaving>, k: usize, each: u32) -> Fork
    requires short { k ≤ 16 }
    requires few { each * 2 ^ k ≤ 65536 }
    ensures { result ≡ fork leaving k each }
{
    let all = power(k);
    match leaving {
        None => Fork {
            words: 1,
            each: each * all,
        },
        Some(_) => Fork { words: all, each },
    }
}

/// Each first word has its tick once, and then the rest of the words are tallied from there; a word that is stopped stops all lists that
/// begin so. Each list counts `each` times: so many have a tick in common where it looks at no row. All is added to `tally`.
pub fn tally_all(table: &Table, state: &State, n: usize, k: usize, each: u32, tally: &mut Tally)
    requires depth { has_bad_depth (view state.now) ≡ false }
    requires few_bits { n * k ≤ 16 }
    requires few { FewMore tally.old (each * lists n k) }
    ensures { tally.new ≡ tally_sum tally.old (tally_times each (tally_of (table_image table.now.bytes.now) (view state.now) n k)) }
{
    if n == 0 {
        add_lists(tally, None, each);
        return;
    }
    let left = n - 1;
    let leaving = leaving_of(table, state);
    if left == 0 {
        if let Some(last) = leaving {
            tally_last(table, last, k, each, tally);
            return;
        }
    }
    let fork = fork_of(leaving, k, each);
    let lists = power(left * k);
    let mut word: u32 = 0;
    while word < fork.words {
        let mut next = *state;
        let done = tick_word(table, &mut next, word as u16);
        word += 1;
        match done {
            Ok(_) => tally_all(table, &next, left, k, fork.each, tally),
            Err(stop) => add_lists(tally, Some(stop), fork.each * lists),
        }
    }
}
