// A text read in one pass: refusals 1 to 3, and the bytes of its frames, ten of each, into a lent buffer.
ghost use Rattle.std.specs.Prelude.{◌≡◌, ◌*◌, ◌≤◌, length};
ghost use Rattle.text.specs.declared.frames.sizes.TheConstants.{FRAME};
ghost use Rattle.text.specs.frames.Frame.{frame_count};
ghost use Rattle.text.specs.frames.Check.{text_verdict};
ghost use Rattle.text.specs.frames.Read.{read_buffer};
ghost use Rattle.text.specs.frames.Answer.{reply, verdict_reply};
ghost use Rattle.text.specs.inner.Reads.{FramesRead};

use crate::frame_reading::read_frame;
use crate::frames::sizes::LINE;
use crate::frames::{Refusal, bad_length};

// The lowest frame that 2 refuses and the lowest that 3 refuses, or the number of frames.
#[derive(Drop)]
struct Lowest {
    form: usize,
    sum: usize,
}

// Each of n frames, from the last one down: the fault found last is the lowest.
fn read_frames(text: &[u8], n: usize, out: &mut [u8]) -> Lowest
    requires whole { LINE * n ≤ length text.now }
    requires room { FRAME * n ≤ length out.old }
    ensures { FramesRead text.now n out.old result out.new }
{
    let mut form = n;
    let mut sum = n;
    let mut f = n;
    while 0 < f {
        f -= 1;
        let faults = read_frame(text, f, out);
        if faults.form {
            form = f;
        }
        if faults.sum {
            sum = f;
        }
    }
    Lowest { form, sum }
}

/// Reads a text of up to `most` characters: its frames are counted, and their bytes stored, ten of each, at the front of the buffer.
/// 1, 2 and 3 refuse; a fault of form in any frame goes before a wrong sum in any. No entry point: the buffer is scratch space, which 2 and
/// 3 leave changed.
#[tactic(auto, using(crate::proofs::reading::Buffers::text_read), unfolding(crate::specs::frames::Check::text_verdict, crate::specs::frames::Read::read_buffer))]
pub fn read_text(text: &[u8], most: usize, out: &mut [u8]) -> Result<usize, Refusal>
    requires { FRAME * most ≤ LINE * length out.old }
    ensures answered { reply result ≡ verdict_reply (text_verdict most text.now) (frame_count text.now) }
    ensures stored { out.new ≡ read_buffer most text.now out.old }
{
    if bad_length(LINE, most, text.len()) {
        return Err(Refusal::BadLength);
    }
    let frames = text.len() / LINE;
    let Lowest { form, sum } = read_frames(text, frames, out);
    if form < frames {
        return Err(Refusal::BadCharacter(form));
    }
    if sum < frames {
        return Err(Refusal::BadSum(sum));
    }
    Ok(frames)
}
