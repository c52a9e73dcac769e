// The call from C that counts how often the stack fills.
ghost use Rattle.std.specs.Prelude.{◌≡◌};
ghost use Rattle.fillings.specs.Counts.{count_fillings};
ghost use Rattle.fairleadow.specs.AnswersForC.{GivesReplyC};

use crate::telling::tell;

/// Counts how often the stack fills: writes how many lists of `ticks` words run to their end, meet 17 and meet 18, each 0 with a refusal.
/// Refuses as the image check does, then with 14 and 28.
#[unsafe(no_mangle)]
pub extern "C" fn fairleadow_count_fillings(
    image: &[u8],
    size: usize,
    ticks: usize,
    conditions: usize,
    ended: &mut u32,
    full: &mut u32,
    unmatched: &mut u32,
    at: &mut usize,
    made: &mut usize,
) -> u8
    ensures told { GivesReplyC (count_fillings image.now size ticks conditions).reply result at.new made.new }
    ensures ended { ended.new ≡ (count_fillings image.now size ticks conditions).ended }
    ensures full { full.new ≡ (count_fillings image.now size ticks conditions).full }
    ensures unmatched { unmatched.new ≡ (count_fillings image.now size ticks conditions).unmatched }
{
    match fillings::counting::count_fillings(image, size, ticks, conditions) {
        Ok(tally) => {
            *ended = tally.ended;
            *full = tally.full;
            *unmatched = tally.unmatched;
            tell(Ok(0), at, made)
        }
        Err(refusal) => {
            *ended = 0;
            *full = 0;
            *unmatched = 0;
            tell(Err(refusal), at, made)
        }
    }
}
