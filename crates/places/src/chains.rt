// Calls between schemes: the longest chain of them that begins at scheme 1, one scheme more in each round. A chain of 17 schemes has one of
// them twice.
ghost use Rattle.std.specs.Prelude.{◌≡◌};
ghost use Rattle.chart_rows.specs.inner.ChartContracts.{Ready};
ghost use Rattle.places.specs.inner.Masks.{called_by, longest_by, longest_chain};

mod calls;

use calls::note_calls;

// The schemes that those of a set call.
fn called_by(masks: &[u32; 17], set: u32) -> u32
    ensures { result ≡ called_by masks.now set 17 }
{
    let mut called: u32 = 0;
    for g in 0..17 {
        if (set >> g) % 2 == 1 {
            called |= masks[g];
        }
    }
    called
}

// By the masks: how many schemes the longest chain from scheme 1 has, if there are no chains of 17.
#[tactic(auto, using(crate::proofs::chains::CallMasks::rounds))]
fn longest_by(masks: &[u32; 17]) -> Option<u8>
    ensures { result ≡ longest_by masks.now }
{
    let mut ends: u32 = 2;
    for schemes in 1..17 {
        ends = called_by(masks, ends);
        if ends == 0 {
            return Some(schemes);
        }
    }
    None
}

/// How many schemes are open at once where calls from scheme 1 go deepest, scheme 1 too: 1 to 16, or none where a scheme that can be
/// reached calls itself, by way of others too.
pub fn longest_chain(records: &[u8]) -> Option<u8>
    requires { Ready records.now }
    ensures { result ≡ longest_chain records.now }
{
    let mut masks = [0u32; 17];
    note_calls(records, &mut masks);
    longest_by(&masks)
}
