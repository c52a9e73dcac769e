// The places that a chart needs, by its text. There is no buffer.
ghost use Rattle.std.specs.Prelude.{◌≡◌, length, nat_lt};
ghost use Rattle.text.specs.frames.Answer.{reply};
ghost use Rattle.chart_rows.specs.inner.ChartContracts.{Ready};
ghost use Rattle.chart_rows.specs.Rows.{rows};
ghost use Rattle.places.specs.Entry.{places_needed};

use crate::chains::longest_chain;
use chart_rows::{COUNTED, NOTES, bound_rows, count_rows, note_nodes};
use chart_text::read_chart;
use text::frames::Refusal;
use text::frames::sizes::*;

// 10: there are more rows than an image has. Where a bound on the rows excludes it, the paths are not walked to count them.
fn too_many_rows(records: &[u8]) -> bool
    requires { Ready records.now }
    ensures { result ≡ nat_lt ROWS (length (rows records.now)) }
{
    let mut notes = [0u8; NOTES];
    note_nodes(records, &mut notes);
    ROWS < bound_rows(records, &notes) && ROWS < count_rows(records, &notes, COUNTED)
}

/// How many places the chart of a text needs: the number of schemes, 1 to 16, of the longest chain of calls that begins at scheme 1.
/// Refusals 1 to 10, with 19 after 5, then 20 where a circle of calls can be reached.
pub fn places_needed(text: &[u8]) -> Result<usize, Refusal>
    ensures { reply result ≡ places_needed text.now }
{
    let mut held = [0u8; RECORDS];
    let count = read_chart(text, &mut held)?;
    let end = RECORD * count;
    let records = &held[..end];
    if too_many_rows(records) {
        return Err(Refusal::ManyRows);
    }
    let Some(schemes) = longest_chain(records) else {
        return Err(Refusal::CallsItself);
    };
    Ok(schemes as usize)
}
