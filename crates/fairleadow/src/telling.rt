// An answer as the three numbers that C gets, and a tick's as these with its mask and its code.
ghost use Rattle.std.specs.Prelude.{◌≡◌, if◌then◌else◌, ◌==◌};
ghost use Rattle.text.specs.frames.Answer.{reply};
ghost use Rattle.runs.specs.TickOutcome.{tick_reply, answered_mask, answered_code};
ghost use Rattle.fairleadow.specs.AnswersForC.{GivesReplyC};

use text::frames::Refusal;
use ticks::Tick;

/// Returns an answer's number, 0 where it is no refusal, and writes the index of the frame that it names and its count, each 0 where
/// it has none.
pub fn tell(answer: Result<usize, Refusal>, at: &mut usize, made: &mut usize) -> u8
    ensures { GivesReplyC (reply answer) result at.new made.new }
{
    match answer {
        Ok(count) => {
            *at = 0;
            *made = count;
            0
        }
        Err(refusal) => {
            *at = refusal.index();
            *made = refusal.ticks();
            refusal.number()
        }
    }
}

/// The same of a tick, with its mask and its code: a finished tick counts 1, and a refused one leaves mask and code as they were.
pub fn tell_tick(
    answer: Result<Tick, Refusal>,
    mask: &mut u32,
    code: &mut u8,
    at: &mut usize,
    made: &mut usize,
) -> u8
    ensures told { GivesReplyC (tick_reply answer) result at.new made.new }
    ensures mask { mask.new ≡ (if result == 0 then answered_mask answer else mask.old) }
    ensures code { code.new ≡ (if result == 0 then answered_code answer else code.old) }
{
    match answer {
        Ok(tick) => {
            *mask = tick.mask;
            *code = tick.code;
            tell(Ok(1), at, made)
        }
        Err(refusal) => tell(Err(refusal), at, made),
    }
}
