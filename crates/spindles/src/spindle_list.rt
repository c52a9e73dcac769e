// Four spindles whose states stand in one list: a call ticks one and leaves the others as they are.
ghost use Rattle.std.specs.Prelude.{◌≡◌, ◌<◌, map, length};
ghost use Rattle.text.specs.frames.Verdict.{fine};
ghost use Rattle.tables.specs.Table.{table_image};
ghost use Rattle.state.specs.Kept.{view};
ghost use Rattle.spindles.specs.declared.layout.TheConstants.{SPINDLES};
ghost use Rattle.spindles.specs.Spindles.{spin, live_spin, GivesSpin};
ghost use Rattle.spindles.specs.inner.Parts.{four_depths, sourced_spin};

use crate::SpinReport;
use crate::layout::SPINDLES;
use crate::turning::turn;
use state::State;
use tables::Table;
use tables::sources::{Prepared, Source, Text};
use text::frames::Refusal;
use text::frames::sizes::TABLE;

// The sum of the four depths.
fn depth_sum(states: &[State]) -> usize
    requires { length states.now ≡ SPINDLES }
    ensures { result ≡ four_depths (map view states.now) }
{
    let a = states[0].depth;
    let b = states[1].depth;
    let c = states[2].depth;
    let d = states[3].depth;
    a as usize + b as usize + c as usize + d as usize
}

// 15 by the list, then the turn of the spindle named.
fn spin_table(
    table: &Table,
    states: &mut [State],
    taken: usize,
    spindle: usize,
    word: u16,
) -> SpinReport
    requires { spindle < SPINDLES }
    ensures { GivesSpin (sourced_spin fine (table_image table.now.bytes.now) (map view states.old) taken spindle word)
        states.old spindle result states.new }
{
    if states.len() != SPINDLES {
        let answer = Err(Refusal::Unfit);
        return SpinReport { answer, taken };
    }
    let sum = depth_sum(states);
    turn(table, &mut states[spindle], sum, taken, word)
}

// 25, what the source is refused for, 15, 17, 26, 18; a refused call leaves the list as it was.
fn spin_by<S: Source<ROOM>, const ROOM: usize>(
    source: &[u8],
    states: &mut [State],
    taken: usize,
    spindle: usize,
    word: u16,
) -> SpinReport
    ensures { GivesSpin (sourced_spin (S.verdict source.now) (S.image source.now) (map view states.old) taken spindle word)
        states.old spindle result states.new }
{
    if SPINDLES <= spindle {
        let answer = Err(Refusal::NoSpindle);
        return SpinReport { answer, taken };
    }
    let mut room = [0u8; ROOM];
    match S::table(source, &mut room) {
        Ok(table) => spin_table(&table, states, taken, spindle, word),
        Err(refusal) => SpinReport {
            answer: Err(refusal),
            taken,
        },
    }
}

/// One tick of spindle `spindle`, 0 to 3, of a list of four states, of which `taken` places are recorded. Refused is 25, what the image
/// check refuses, 15 for the list or its state, 17, 26 and 18; then nothing changes.
#[tactic(auto, using(crate::proofs::OneCall::sourced))]
pub fn spin(
    states: &mut [State],
    taken: usize,
    spindle: usize,
    image: &[u8],
    word: u16,
) -> SpinReport
    ensures { GivesSpin (spin image.now (map view states.old) taken spindle word)
        states.old spindle result states.new }
{
    spin_by::<Text, TABLE>(image, states, taken, spindle, word)
}

/// The same on the spindle's prepared table: 25, 11, 15, 17, 26 and 18.
#[tactic(auto, using(crate::proofs::OneCall::sourced))]
pub fn live_spin(
    states: &mut [State],
    taken: usize,
    spindle: usize,
    table: &[u8],
    word: u16,
) -> SpinReport
    ensures { GivesSpin (live_spin table.now (map view states.old) taken spindle word)
        states.old spindle result states.new }
{
    spin_by::<Prepared, 0>(table, states, taken, spindle, word)
}
