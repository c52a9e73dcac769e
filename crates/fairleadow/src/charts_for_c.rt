// The calls from C on charts: read, written, fetched by number, and how many places one needs.
ghost use Rattle.std.specs.Prelude.{◌≡◌};
ghost use Rattle.charts.specs.Entry.{read_chart, write_chart};
ghost use Rattle.little_charts.specs.Little.{little_chart};
ghost use Rattle.places.specs.Entry.{places_needed};
ghost use Rattle.fairleadow.specs.AnswersForC.{GivesReplyC};

use crate::telling::tell;

/// A chart's lines as node records, ten bytes each; counts records. Refuses with 1 to 5, 19, 6 to 9 and 16.
#[unsafe(no_mangle)]
pub extern "C" fn fairleadow_read_chart(
    text: &[u8],
    records: &mut [u8],
    at: &mut usize,
    made: &mut usize,
) -> u8
    ensures told { GivesReplyC (read_chart text.now records.old).reply result at.new made.new }
    ensures written { records.new ≡ (read_chart text.now records.old).buffer }
{
    let answer = chart_text::read_chart(text, records);
    tell(answer, at, made)
}

/// Node records as a chart's lines, in capitals; counts characters. Refuses with 1, 4, 5, 19, 6 to 9 and 16.
#[unsafe(no_mangle)]
pub extern "C" fn fairleadow_write_chart(
    records: &[u8],
    text: &mut [u8],
    at: &mut usize,
    made: &mut usize,
) -> u8
    ensures told { GivesReplyC (write_chart records.now text.old).reply result at.new made.new }
    ensures written { text.new ≡ (write_chart records.now text.old).buffer }
{
    let answer = chart_text::write_chart(records, text);
    tell(answer, at, made)
}

/// The lines of little chart `number`, from 0, of 2 to 4 frames; counts characters. Refuses with 24 and 16.
#[unsafe(no_mangle)]
pub extern "C" fn fairleadow_little_chart(
    frames: usize,
    number: usize,
    text: &mut [u8],
    at: &mut usize,
    made: &mut usize,
) -> u8
    ensures told { GivesReplyC (little_chart frames number text.old).reply result at.new made.new }
    ensures written { text.new ≡ (little_chart frames number text.old).buffer }
{
    let answer = little_fetch::fetching::little_chart(frames, number, text);
    tell(answer, at, made)
}

/// How many places a chart's calls take at most, which it counts: 1 to 16. Refuses as a translation does, but with 20 in place of 16.
#[unsafe(no_mangle)]
pub extern "C" fn fairleadow_places(chart: &[u8], at: &mut usize, made: &mut usize) -> u8
    ensures { GivesReplyC (places_needed chart.now) result at.new made.new }
{
    let answer = places::places_needed(chart);
    tell(answer, at, made)
}
