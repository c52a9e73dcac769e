// A tick on a state behind a reference, after the core by value.
ghost use Rattle.state.specs.Kept.{view};
ghost use Rattle.runs.specs.TickOutcome.{image_tick};
ghost use Rattle.runs.specs.InPlace.{GivesTickOn};

use crate::state_runs::tick_image;
use state::State;
use text::frames::Refusal;
use ticks::Tick;

/// One tick on a state that the caller keeps: a refused tick leaves it as it was.
pub fn tick(state: &mut State, image: &[u8], word: u16) -> Result<Tick, Refusal>
    ensures { GivesTickOn (image_tick image.now (view state.old) word) state.old result state.new }
{
    let old = *state;
    let done = tick_image(image, old, word);
    *state = done.state;
    done.answer
}
