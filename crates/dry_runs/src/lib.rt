//! A chart run from its text to its ticks in one call: translated, and run from a fresh state.
#![tactic(auto)]

ghost use Rattle.state.specs.Kept.{view};
ghost use Rattle.runs.specs.Run.{run};
ghost use Rattle.runs.specs.InPlace.{GivesRunOn};
ghost use Rattle.dry_runs.specs.DryRun.{dry_run, GivesDryRun};

use runs::state_runs::run;
use state::{State, StateReport};
use text::frames::Refusal;
use translator::translating::translate;

// The run by itself, called and not taken in: so the rooms of a translation and of a run are never on the stack at once.
#[inline(never)]
fn run_apart(
    image: &[u8],
    state: State,
    words: &[u16],
    masks: &mut [u32],
    codes: &mut [u8],
) -> StateReport
    ensures { GivesRunOn (run image.now (view state) words.now masks.old codes.old)
        state result.answer result.state masks.new codes.new }
{
    run(image, state, words, masks, codes)
}

/// Runs a chart from its text: translates it, makes a fresh state of `size` places, 1 to 32, and runs `words` from it on the image, a word
/// of signals a tick, bit c for condition c. `image` is lent for the image's characters, 29,831 at most; `masks` and `codes` get a mask and
/// a code a tick, and need a place for each word. Answers how many ticks were made.
///
/// Refuses, in this order, what `translate` refuses (1 to 10, 19 after 5, 16 by `image`), 14, and what the run refuses: 16 by `masks` or
/// `codes` before any tick, else 17 with the ticks finished before it. Once `translate` has succeeded `image` holds the image, whatever is
/// refused after it; `masks` and `codes` change only where ticks are made.
pub fn dry_run(
    text: &[u8],
    size: usize,
    image: &mut [u8],
    words: &[u16],
    masks: &mut [u32],
    codes: &mut [u8],
) -> Result<usize, Refusal>
    ensures { GivesDryRun (dry_run text.now size image.old words.now masks.old codes.old)
        result image.new masks.new codes.new }
{
    let count = translate(text, image)?;
    let made = State::fresh(size);
    made.answer?;
    let written = &image[..count];
    let report = run_apart(written, made.state, words, masks, codes);
    report.answer
}
