// The calls of a chart's nodes: for each scheme a mask of the schemes that it calls, bit h for scheme h.
ghost use Rattle.std.specs.Prelude.{◌≡◌, ◌+◌, ◌<◌, replicate};
ghost use Rattle.text.specs.frames.Frame.{size};
ghost use Rattle.chart_rows.specs.inner.ChartContracts.{Ready, Inner};
ghost use Rattle.places.specs.inner.Masks.{called_at, call_masks, CallsAsked};

use charts::field;
use charts::layout::*;
use text::frames::sizes::RECORD;

// The scheme that node v calls, 0 where it holds no call.
fn called_at(records: &[u8], v: usize) -> u8
    requires { Inner records.now v }
    ensures { result ≡ called_at records.now v }
{
    match field(records, v, KIND) {
        OPERATION => field(records, v, ARGUMENT),
        FUNCTION => field(records, v, ARGUMENT),
        _ => 0,
    }
}

// Node v's call is added to those of its scheme.
#[tactic(auto, using(crate::proofs::chains::CallMasks::calls))]
fn note_call(records: &[u8], v: usize, masks: &mut [u32; 17])
    requires { CallsAsked records.now v masks.old }
    ensures { masks.new ≡ call_masks records.now (v + 1) }
{
    let called = called_at(records, v);
    if called != 0 {
        let scheme = field(records, v, SCHEME) as usize;
        masks[scheme] |= 1 << called;
    }
}

/// Notes the calls of all nodes: in the mask of each scheme bit h where a node of it calls scheme h.
#[tactic(auto, using(crate::proofs::chains::CallMasks::none_yet))]
pub fn note_calls(records: &[u8], masks: &mut [u32; 17])
    requires ready { Ready records.now }
    requires no_calls { masks.old ≡ replicate 17 0 }
    ensures { masks.new ≡ call_masks records.now (size records.now) }
{
    let n = records.len() / RECORD;
    for v in 0..n {
        note_call(records, v, masks);
    }
}
