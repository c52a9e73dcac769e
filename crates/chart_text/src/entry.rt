// The chart reader and the chart writer. Nothing is written before every refusal is settled.
ghost use Rattle.text.specs.frames.Answer.{GivesBuffer};
ghost use Rattle.charts.specs.Entry.{read_chart, write_chart};

use chart_check::check_chart;
use text::frames::sizes::*;
use text::frames::{Refusal, bad_length, put_bytes, put_text};
use text::reading::read_text;

/// Reads a chart's text to its node records, ten bytes each, at the front of the buffer, and counts them. 1 to 9, with 19 after 5, and then
/// 16 refuse, and leave the buffer as it was.
pub fn read_chart(text: &[u8], out: &mut [u8]) -> Result<usize, Refusal>
    ensures { GivesBuffer (read_chart text.now out.old) result out.new }
{
    let mut table = [0u8; RECORDS];
    let count = read_text(text, CHART_TEXT, &mut table)?;
    let end = RECORD * count;
    let records = &table[..end];
    check_chart(records)?;
    if out.len() < end {
        return Err(Refusal::NoRoom);
    }
    put_bytes(out, 0, records);
    Ok(count)
}

/// Writes node records as the chart's text, in capitals, at the front of the buffer, and counts its characters. 1, 4 to 9, with 19 after 5,
/// and then 16 refuse, and leave the buffer as it was.
#[tactic(auto, unfolding(charts::specs::Entry::write_chart, charts::specs::Entry::write_verdict))]
pub fn write_chart(records: &[u8], out: &mut [u8]) -> Result<usize, Refusal>
    ensures { GivesBuffer (write_chart records.now out.old) result out.new }
{
    if bad_length(RECORD, RECORDS, records.len()) {
        return Err(Refusal::BadLength);
    }
    check_chart(records)?;
    let count = LINE * (records.len() / RECORD);
    if out.len() < count {
        return Err(Refusal::NoRoom);
    }
    put_text(out, 0, records);
    Ok(count)
}
