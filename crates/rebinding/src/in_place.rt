// Rebindings in a state that the caller keeps.
ghost use Rattle.text.specs.frames.Verdict.{fine};
ghost use Rattle.tables.specs.Table.{table_image};
ghost use Rattle.state.specs.Kept.{view};
ghost use Rattle.rebinding.specs.Rebind.{GivesRebindingOn};
ghost use Rattle.rebinding.specs.inner.Sources.{sourced_rebind};

use crate::rebindable::bad_rebinding;
use fitness::fitting::is_unfit;
use state::State;
use tables::Table;
use tables::sources::Source;
use text::frames::Refusal;

// A rebinding on a prepared table: 15, then 22.
fn rebind_table(
    table: &Table,
    state: &mut State,
    number: usize,
    scheme: usize,
) -> Result<usize, Refusal>
    ensures { GivesRebindingOn (sourced_rebind fine (table_image table.now.bytes.now) (view state.old) number scheme)
        state.old result state.new }
{
    if is_unfit(table, state) {
        return Err(Refusal::Unfit);
    }
    if bad_rebinding(table, number, scheme) {
        return Err(Refusal::BadRebinding);
    }
    state.put_serving(number, scheme as u8);
    state.tidy();
    Ok(0)
}

/// Has number `number` served by scheme `scheme` from then on; refused, the state stays. Refused is what the source is refused for, then
/// 15 and 22.
pub fn rebind<S: Source<ROOM>, const ROOM: usize>(
    source: &[u8],
    state: &mut State,
    number: usize,
    scheme: usize,
) -> Result<usize, Refusal>
    ensures { GivesRebindingOn (sourced_rebind (S.verdict source.now) (S.image source.now) (view state.old) number scheme)
        state.old result state.new }
{
    let mut room = [0u8; ROOM];
    let table = S::table(source, &mut room)?;
    rebind_table(&table, state, number, scheme)
}
