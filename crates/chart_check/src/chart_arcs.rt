// Refusals 6 and 7: where arcs lead, and which schemes are called.
ghost use Rattle.std.specs.Prelude.{◌≡◌, ◌||◌, ◌+◌, ◌*◌, ◌≤◌, length, find};
ghost use Rattle.std.specs.List.{range_with_len};
ghost use Rattle.text.specs.frames.Frame.{size};
ghost use Rattle.text.specs.frames.Answer.{reply, verdict_reply};
ghost use Rattle.charts.specs.Chart.{next0, next1, schemes};
ghost use Rattle.charts.specs.Check.{is_bad_target, has_bad_arc, has_bad_call};
ghost use Rattle.chart_check.specs.inner.CheckContracts.{arcs_verdict};

use charts::field;
use charts::layout::*;
use text::frames::Refusal;
use text::frames::sizes::RECORD;

// An arc of node v to u leads nowhere, into another scheme or to a Begin.
fn bad_target(records: &[u8], v: usize, u: usize) -> bool
    requires { RECORD * v + RECORD ≤ length records.now }
    ensures { result ≡ is_bad_target records.now v u }
{
    records.len() / RECORD <= u
        || field(records, u, SCHEME) != field(records, v, SCHEME)
        || field(records, u, KIND) == BEGIN
}

// One of the two arcs of node v leads where none may.
fn bad_pair(records: &[u8], v: usize) -> bool
    requires { RECORD * v + RECORD ≤ length records.now }
    ensures { result ≡ (is_bad_target records.now v (next0 records.now v)
        || is_bad_target records.now v (next1 records.now v)) }
{
    bad_target(records, v, field(records, v, NEXT0) as usize)
        || bad_target(records, v, field(records, v, NEXT1) as usize)
}

// 6: an arc of node v leads where none may. An End has none, a condition and a function have two.
fn bad_arc(records: &[u8], v: usize) -> bool
    requires { RECORD * v + RECORD ≤ length records.now }
    ensures { result ≡ has_bad_arc records.now v }
{
    match field(records, v, KIND) {
        END => false,
        CONDITION..=FUNCTION => bad_pair(records, v),
        _ => bad_target(records, v, field(records, v, NEXT0) as usize),
    }
}

// 7: node v calls scheme 1 or one above the highest, or is a function that calls 0.
fn bad_call(records: &[u8], highest: u8, v: usize) -> bool
    requires whole_record { RECORD * v + RECORD ≤ length records.now }
    requires highest { highest ≡ schemes records.now }
    ensures { result ≡ has_bad_call records.now v }
{
    let called = field(records, v, ARGUMENT);
    match field(records, v, KIND) {
        OPERATION => {
            if called == 1 {
                return true;
            }
            highest < called
        }
        FUNCTION => {
            if called <= 1 {
                return true;
            }
            highest < called
        }
        _ => false,
    }
}

// The lowest node that 6 or 7 refuses, if there is one: all that an accepted chart is asked here.
fn lowest_fault(records: &[u8], highest: u8) -> Option<usize>
    requires { highest ≡ schemes records.now }
    ensures { result ≡ find (λ v. has_bad_arc records.now v || has_bad_call records.now v)
        (range_with_len 0 (size records.now)) }
{
    (0..records.len() / RECORD).find(|v| bad_arc(records, *v) || bad_call(records, highest, *v))
}

// The lowest node that 6 refuses, if there is one.
fn lowest_bad_arc(records: &[u8]) -> Option<usize>
    ensures { result ≡ find (has_bad_arc records.now) (range_with_len 0 (size records.now)) }
{
    (0..records.len() / RECORD).find(|v| bad_arc(records, *v))
}

/// Refusals 6 and 7 of nodes with at most `highest` schemes, each before the other for all nodes. Counts 0.
pub fn check_arcs(records: &[u8], highest: u8) -> Result<usize, Refusal>
    requires { highest ≡ schemes records.now }
    ensures { reply result ≡ verdict_reply (arcs_verdict records.now) 0 }
{
    if let Some(fault) = lowest_fault(records, highest) {
        // where no arc is bad, the lowest fault is a call
        return match lowest_bad_arc(records) {
            Some(v) => Err(Refusal::BadArc(v)),
            None => Err(Refusal::BadCall(fault)),
        };
    }
    Ok(0)
}
