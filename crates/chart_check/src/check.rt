// Refusals 4 to 9 of node records, each before the next, with 19 after 5.
ghost use Rattle.std.specs.Prelude.{◌≡◌, ◌*◌, ◌≤◌, length};
ghost use Rattle.text.specs.declared.frames.sizes.TheConstants.{NODES};
ghost use Rattle.text.specs.frames.Frame.{size};
ghost use Rattle.text.specs.frames.Answer.{reply, verdict_reply};
ghost use Rattle.charts.specs.Check.{chart_verdict};

use crate::chart_arcs::check_arcs;
use crate::chart_counts::check_fields;
use crate::chart_handler::bad_marks;
use crate::joined::check_joined;
use text::frames::Refusal;
use text::frames::sizes::RECORD;

/// Whether records of at most 256 nodes are a chart. Refused are, in this order: a field (4), a scheme's Begins and Ends (5), marks (19),
/// arcs (6), calls (7), a circle of conditions (8), nodes cut off from their Begin (9); 4 and 6 to 9 name the lowest such node. Counts 0.
#[tactic(auto, unfolding(charts::specs::Check::chart_verdict))]
pub fn check_chart(records: &[u8]) -> Result<usize, Refusal>
    requires whole { length records.now ≡ RECORD * size records.now }
    requires few { size records.now ≤ NODES }
    ensures { reply result ≡ verdict_reply (chart_verdict records.now) 0 }
{
    let highest = check_fields(records)?;
    if bad_marks(records) {
        return Err(Refusal::BadMarks);
    }
    check_arcs(records, highest)?;
    check_joined(records)
}
