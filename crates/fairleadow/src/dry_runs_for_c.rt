// The call from C that runs a chart from its text.
ghost use Rattle.std.specs.Prelude.{◌≡◌};
ghost use Rattle.dry_runs.specs.DryRun.{dry_run};
ghost use Rattle.fairleadow.specs.AnswersForC.{GivesReplyC};

use crate::telling::tell;

/// Runs a chart from its text in a fresh state of `size` places: the image is written once the chart is translated, a mask and a code with
/// each tick. Refuses as a translation does, then with 14, 16 for masks or codes, and 17; counts ticks.
#[unsafe(no_mangle)]
pub extern "C" fn fairleadow_dry_run(
    text: &[u8],
    size: usize,
    image: &mut [u8],
    words: &[u16],
    masks: &mut [u32],
    codes: &mut [u8],
    at: &mut usize,
    made: &mut usize,
) -> u8
    ensures told { GivesReplyC
        (dry_run text.now size image.old words.now masks.old codes.old).reply result at.new made.new }
    ensures image { image.new ≡ (dry_run text.now size image.old words.now masks.old codes.old).image }
    ensures masks { masks.new ≡ (dry_run text.now size image.old words.now masks.old codes.old).masks }
    ensures codes { codes.new ≡ (dry_run text.now size image.old words.now masks.old codes.old).codes }
{
    let answer = dry_runs::dry_run(text, size, image, words, masks, codes);
    tell(answer, at, made)
}
