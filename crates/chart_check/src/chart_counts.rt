// The number of schemes, and refusals 4 and 5 in one pass: each node is tried, and the Begins and the Ends of each scheme are counted.
ghost use Rattle.std.specs.Prelude.{◌≡◌, ◌+◌, ◌≤◌, ◌<◌, length, replicate, OnOk, IfOk};
ghost use Rattle.std.specs.List.{list_any, range_with_len};
ghost use Rattle.text.specs.declared.frames.sizes.TheConstants.{NODES, SCHEMES};
ghost use Rattle.text.specs.declared.frames.refusals.TheConstants.{BAD_FIELD};
ghost use Rattle.text.specs.frames.Frame.{size};
ghost use Rattle.text.specs.frames.Verdict.{at_lowest};
ghost use Rattle.text.specs.frames.Answer.{reply, verdict_reply};
ghost use Rattle.charts.specs.Chart.{schemes};
ghost use Rattle.charts.specs.Check.{has_bad_field};
ghost use Rattle.charts.specs.declared.layout.TheConstants.{BEGIN, END};
ghost use Rattle.chart_check.specs.inner.Counts.{counts_to, is_not_one_of_each};
ghost use Rattle.chart_check.specs.inner.FieldContracts.{NodeAsked, fields_verdict};

use crate::chart_fields::bad_field;
use charts::field;
use charts::layout::*;
use text::frames::Refusal;
use text::frames::sizes::RECORD;

/// H, the number of schemes: the largest scheme of a node, 0 where there is no node.
pub fn highest_scheme(records: &[u8]) -> u8
    ensures { result ≡ schemes records.now }
{
    let mut highest: u8 = 0;
    for v in 0..records.len() / RECORD {
        let scheme = field(records, v, SCHEME);
        if highest < scheme {
            highest = scheme;
        }
    }
    highest
}

// Node v is counted for its scheme where it is of this kind.
#[tactic(auto, using(crate::proofs::chart_counts::SchemeCounts::scheme_counts))]
fn count_node(records: &[u8], v: usize, kind: u8, counts: &mut [u16])
    requires { NodeAsked records.now v kind counts.old }
    ensures { counts.new ≡ counts_to records.now kind (v + 1) }
{
    if field(records, v, KIND) == kind {
        let scheme = field(records, v, SCHEME) as usize;
        counts[scheme] += 1;
    }
}

// Nodes are tried and counted up to the lowest that 4 refuses; H where there is none.
fn count_schemes(records: &[u8], begins: &mut [u16], ends: &mut [u16]) -> Result<u8, Refusal>
    requires few { size records.now ≤ NODES }
    requires no_begins { begins.old ≡ replicate 17 0 }
    requires no_ends { ends.old ≡ replicate 17 0 }
    ensures told { reply result ≡ verdict_reply
        (at_lowest BAD_FIELD (has_bad_field records.now) (size records.now)) (schemes records.now) }
    ensures low { IfOk result (λ h. h ≤ SCHEMES) }
    ensures begins { OnOk result (begins.new ≡ counts_to records.now BEGIN (size records.now)) }
    ensures ends { OnOk result (ends.new ≡ counts_to records.now END (size records.now)) }
{
    let n = records.len() / RECORD;
    let mut highest: u8 = 0;
    for v in 0..n {
        if bad_field(records, v) {
            return Err(Refusal::BadField(v));
        }
        let scheme = field(records, v, SCHEME);
        if highest < scheme {
            highest = scheme;
        }
        count_node(records, v, BEGIN, begins);
        count_node(records, v, END, ends);
    }
    Ok(highest)
}

// By these counts some scheme of 1 to the highest has not exactly one Begin and one End.
fn any_not_one(begins: &[u16], ends: &[u16], highest: u8) -> bool
    requires begins_counted { highest < length begins.now }
    requires ends_counted { highest < length ends.now }
    ensures { result ≡ list_any (is_not_one_of_each begins.now ends.now) (range_with_len 1 highest) }
{
    (1..highest as usize + 1).any(|h| begins[h] != 1 || ends[h] != 1)
}

/// Refusals 4 and 5 of at most 256 nodes, in one pass; H, the largest scheme, where neither refuses.
#[tactic(auto, using(crate::proofs::chart_counts::SchemeCounts::scheme_counts))]
pub fn check_fields(records: &[u8]) -> Result<u8, Refusal>
    requires { size records.now ≤ NODES }
    ensures { reply result ≡ verdict_reply (fields_verdict records.now) (schemes records.now) }
{
    let mut begins = [0u16; 17];
    let mut ends = [0u16; 17];
    let highest = count_schemes(records, &mut begins, &mut ends)?;
    if any_not_one(&begins, &ends, highest) {
        return Err(Refusal::BadScheme);
    }
    Ok(highest)
}
