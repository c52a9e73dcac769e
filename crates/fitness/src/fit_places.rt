// Whether the open places of a state fit, from the bottom up.
ghost use Rattle.std.specs.Prelude.{◌≡◌, ◌+◌, ◌*◌, ◌≤◌, ◌<◌, ◌||◌};
ghost use Rattle.words.specs.lists.Numbers.{any};
ghost use Rattle.text.specs.declared.frames.sizes.TheConstants.{FRAME};
ghost use Rattle.text.specs.frames.Frame.{field};
ghost use Rattle.image.specs.Decode.{handler_in, labels_from};
ghost use Rattle.tables.specs.Table.{table_image};
ghost use Rattle.state.specs.declared.layout.TheConstants.{PLACES};
ghost use Rattle.state.specs.State.{number_at, server_at};
ghost use Rattle.state.specs.Kept.{view};
ghost use Rattle.fitness.specs.Fitness.{is_unfit_place, has_bad_bottom};
ghost use Rattle.fitness.specs.inner.FitnessContracts.{is_astray_at_bottom};

use crate::{calls_none, is_astray, is_first, is_miscalled, is_own, is_two_to};
use image::layout::{CALLED, OWNER, TICK_KIND};
use state::State;
use tables::Table;
use text::frames::sizes::FRAME;

// Whether a bottom of that owner, number and server is not of scheme 1 or the handler by its own number. The handler is read only where it
// decides.
fn is_astray_at_bottom(table: Table, owner: u8, l: u8, number: u8, server: u8) -> bool
    ensures { result ≡ is_astray_at_bottom (handler_in table.entry.bytes.now) owner l number server }
{
    if is_first(owner, number, server) {
        return false;
    }
    let handler = table.handler();
    if handler == 0 {
        return true;
    }
    if is_own(number, server, handler) {
        return is_astray(owner, handler, l);
    }
    true
}

// Byte k, 0 to 9, of the frame of label l, 2 to M, where that of label 0 begins at a byte that is found once for all places.
fn field_behind(table: Table, start: usize, l: usize, k: usize) -> u8
    requires begun { start ≡ FRAME * labels_from table.bytes.now }
    requires low { 2 ≤ l }
    requires high { l ≤ table.last }
    requires inside { k < FRAME }
    ensures { result ≡ field table.entry.bytes.now (labels_from table.entry.bytes.now + l) k }
{
    table.bytes[start + FRAME * l + k]
}

/// Whether some place up to the depth does not fit, or the bottom does not.
// each label is read once, from the bottom up, with the number that the one below calls; 0 and 1 have no frame to read. Three bytes of a
// frame are taken as they stand: a kind above 2 is no call either, and a called number above H `is_uncalled` tells
pub fn any_unfit(table: &Table, state: &State) -> bool
    requires some { 1 ≤ (view state.now).depth }
    requires most { (view state.now).depth ≤ PLACES }
    ensures { result ≡ (any (is_unfit_place (table_image table.now.bytes.now) (view state.now)) 0
        (view state.now).depth || has_bad_bottom (table_image table.now.bytes.now) (view state.now)) }
{
    let table = *table;
    let schemes = table.schemes;
    let last = table.last;
    let depth = state.depth as u32;
    let bottom = state.places[0];
    // read before the label: where each of its cases reads them by itself, their addresses take registers through the loop
    let number = state.numbers[0];
    let server = state.servers[0];
    if last < bottom {
        return true;
    }
    let first = table.label(bottom);
    if is_astray_at_bottom(table, first.owner, bottom, number, server) {
        return true;
    }
    if calls_none(first.kind) {
        return 1 < depth;
    }
    let start = FRAME * ((schemes as usize) + 1);
    let mut called = first.called;
    let mut k: u32 = 1;
    while k < depth {
        let l = state.places[k as usize];
        let server = state.servers[k as usize];
        if is_miscalled(schemes, state.numbers[k as usize], called, server) {
            return true;
        }
        if !is_two_to(last, l) {
            if l == 1 {
                return k + 1 < depth;
            }
            return true;
        }
        let owner = field_behind(table, start, l as usize, OWNER);
        if owner != server {
            return true;
        }
        k += 1;
        let kind = field_behind(table, start, l as usize, TICK_KIND);
        if calls_none(kind) {
            return k < depth;
        }
        called = field_behind(table, start, l as usize, CALLED);
    }
    false
}
