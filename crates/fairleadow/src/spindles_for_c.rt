// The calls from C on four spindles, on an image and live on a prepared table; the list's length counts states.
ghost use Rattle.std.specs.Prelude.{◌≡◌};
ghost use Rattle.spindles.specs.Spindles.{if_spun, states_spun};
ghost use Rattle.fairleadow.specs.AnswersForC.{GivesReplyC};
ghost use Rattle.fairleadow.specs.SpindlesForC.{spin_for, live_spin_for};

use crate::telling::tell_tick;
use spindles::spindle_list;
use state::State;

/// One tick of spindle 0 to 3 of four; counts 1. Refuses with 25, as the image check does, then with 15, 17, 26 and 18: a refused tick
/// writes no mask, no code and no state, and leaves `taken` as it was.
#[unsafe(no_mangle)]
pub extern "C" fn fairleadow_spin(
    states: &mut [State],
    taken: &mut usize,
    spindle: usize,
    image: &[u8],
    word: u16,
    mask: &mut u32,
    code: &mut u8,
    at: &mut usize,
    made: &mut usize,
) -> u8
    ensures told { GivesReplyC (spin_for image.now states.old taken.old spindle word).reply result at.new made.new }
    ensures states { states.new ≡ states_spun states.old spindle
        (spin_for image.now states.old taken.old spindle word) }
    ensures taken { taken.new ≡ (spin_for image.now states.old taken.old spindle word).taken }
    ensures mask { mask.new ≡ if_spun (spin_for image.now states.old taken.old spindle word)
        (spin_for image.now states.old taken.old spindle word).mask mask.old }
    ensures code { code.new ≡ if_spun (spin_for image.now states.old taken.old spindle word)
        (spin_for image.now states.old taken.old spindle word).code code.old }
{
    let recorded = *taken;
    let report = spindle_list::spin(states, recorded, spindle, image, word);
    *taken = report.taken;
    tell_tick(report.answer, mask, code, at, made)
}

/// The same on the spindle's prepared table. Refuses with 25, 11, 15, 17, 26 and 18.
#[unsafe(no_mangle)]
pub extern "C" fn fairleadow_live_spin(
    states: &mut [State],
    taken: &mut usize,
    spindle: usize,
    table: &[u8],
    word: u16,
    mask: &mut u32,
    code: &mut u8,
    at: &mut usize,
    made: &mut usize,
) -> u8
    ensures told { GivesReplyC
        (live_spin_for table.now states.old taken.old spindle word).reply result at.new made.new }
    ensures states { states.new ≡ states_spun states.old spindle
        (live_spin_for table.now states.old taken.old spindle word) }
    ensures taken { taken.new ≡ (live_spin_for table.now states.old taken.old spindle word).taken }
    ensures mask { mask.new ≡ if_spun (live_spin_for table.now states.old taken.old spindle word)
        (live_spin_for table.now states.old taken.old spindle word).mask mask.old }
    ensures code { code.new ≡ if_spun (live_spin_for table.now states.old taken.old spindle word)
        (live_spin_for table.now states.old taken.old spindle word).code code.old }
{
    let recorded = *taken;
    let report = spindle_list::live_spin(states, recorded, spindle, table, word);
    *taken = report.taken;
    tell_tick(report.answer, mask, code, at, made)
}
