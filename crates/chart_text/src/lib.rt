//! The chart reader and the chart writer: a chart's text to its node records and back (`entry`), and frames made into text where they stand
//! (`in_place`). Its laws are the round trips.
#![tactic(auto)]

ghost use Rattle.chart_text.specs.RoundTrips.{ReadOfWrite, WriteOfRead, WriteOfCapitals, WrittenCapitals};

mod entry;
mod in_place;

pub use entry::{read_chart, write_chart};
pub use in_place::spread;

/// Charts that are written and read, or read and written, come back with nothing lost but the size of letters.
pub fn reading_and_writing_lose_nothing()
    ensures read_of_write { ReadOfWrite }
    ensures write_of_read { WriteOfRead }
    ensures write_of_capitals { WriteOfCapitals }
    ensures written_capitals { WrittenCapitals }
{}
