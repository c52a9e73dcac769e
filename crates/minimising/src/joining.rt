// The labels of a table joined: 23, the grouping, and the smaller image of its groups.
ghost use Rattle.text.specs.declared.frames.refusals.TheConstants.{UNEVEN};
ghost use Rattle.text.specs.frames.Verdict.{fine, when};
ghost use Rattle.text.specs.frames.Answer.{GivesBuffer};
ghost use Rattle.image.specs.Decode.{decoded_image};
ghost use Rattle.covering.specs.Matched.{is_uneven};
ghost use Rattle.minimising.specs.inner.WriteContracts.{smaller_outcome};
ghost use Rattle.minimising.specs.inner.JoiningContracts.{ReadableTable};

use crate::group_image::write_groups;
use covering::is_uneven;
use grouping::refining::group;
use state::State;
use tables::Table;
use text::frames::Refusal;

/// Refusals 23 and 16, else the smaller image is written; counts characters.
pub fn minimise_table(table: Table, out: &mut [u8]) -> Result<usize, Refusal>
    requires { ReadableTable table.bytes.now }
    ensures { GivesBuffer (smaller_outcome table.entry.bytes.now
        (when UNEVEN (is_uneven (decoded_image table.entry.bytes.now))) out.old)
        result out.new }
{
    if is_uneven(table.bytes) {
        return Err(Refusal::Uneven);
    }
    let mut classes = [0u8; State::LABELS];
    group(table, &mut classes);
    write_groups(table.bytes, &classes, out)
}
