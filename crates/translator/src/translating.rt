// The translator: a chart's text to the text of its image.
ghost use Rattle.std.specs.Prelude.{◌≡◌};
ghost use Rattle.text.specs.frames.Answer.{GivesBuffer};
ghost use Rattle.charts.specs.Chart.{schemes};
ghost use Rattle.chart_rows.specs.inner.ChartContracts.{Ready};
ghost use Rattle.translator.specs.Entry.{translate};
ghost use Rattle.translator.specs.inner.ImageBytes.{image_outcome};

use crate::{put_image, size_refusal};
use chart_check::highest_scheme;
use chart_rows::{NOTES, note_nodes};
use chart_text::read_chart;
use text::frames::Refusal;
use text::frames::sizes::{RECORD, RECORDS};

// The image of an accepted chart: 10 and 16 are settled before anything is written.
fn write_image(records: &[u8], highest: u8, out: &mut [u8]) -> Result<usize, Refusal>
    requires ready { Ready records.now }
    requires all_schemes { highest ≡ schemes records.now }
    ensures { GivesBuffer (image_outcome records.now out.old) result out.new }
{
    let mut notes = [0u8; NOTES];
    let own = note_nodes(records, &mut notes);
    if let Some(refusal) = size_refusal(records, &notes, 3 + highest as usize + own, out.len()) {
        return Err(refusal);
    }
    Ok(put_image(records, &notes, highest, own, out))
}

/// The image of a chart's text. Refusals 1 to 10, 19 after 5, and 16, else the number of characters. Nothing is written before every refusal
/// is settled.
pub fn translate(text: &[u8], out: &mut [u8]) -> Result<usize, Refusal>
    ensures { GivesBuffer (translate text.now out.old) result out.new }
{
    let mut held = [0u8; RECORDS];
    let read = read_chart(text, &mut held);
    let Ok(count) = read else {
        return read;
    };
    let end = RECORD * count;
    let records = &held[..end];
    let highest = highest_scheme(records);
    write_image(records, highest, out)
}
