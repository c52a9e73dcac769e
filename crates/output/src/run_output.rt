// The run program between its input and its output.
ghost use Rattle.std.specs.Prelude.{◌≡◌, ◌≤◌, length, Some};
ghost use Rattle.text.specs.frames.Answer.{reply, reply_count};
ghost use Rattle.output.specs.Prints.{Prints};
ghost use Rattle.output.specs.RunProgram.{program_words, run_lines, run_output};
ghost use Rattle.std.specs.Io.Cursor.{cursor_position, cursor_inner};
ghost use Rattle.console.specs.Memory.{written_front, unwritten_rest, HasNoRoom};
ghost use Rattle.console.specs.Outcome.{PrintsFor, WritesOver, ReadsUpTo, TellsErrors, PrintsWhereItFits};

use crate::output_lines::{put_codes, put_refusal};
use console::streams::{Reader, Writer};
use console::{Input, Outcome};
use state::State;
use std::io::Cursor;
use text::frames::Refusal;
use text::frames::sizes::{IMAGE_TEXT, LINE};

/// One character more than the longest image: of a longer text no more needs to be read.
pub const IMAGE_READ: usize = IMAGE_TEXT + 1;

/// The most that a run prints, in characters: a line for each of 64 ticks, and the frame of a refusal.
pub const RUN_PRINTS: usize = 64 * 3 + LINE;

// The words 0 to 63.
fn count_up() -> [u16; 64]
    ensures { result ≡ program_words }
{
    let mut all = [0u16; 64];
    for i in 0..64 {
        all[i] = i as u16;
    }
    all
}

// The codes of the finished ticks, then the refusal if there is one.
fn put_run(answer: Result<usize, Refusal>, codes: &[u8], out: &mut [u8; RUN_PRINTS]) -> usize
    requires ticked { reply_count (reply answer) ≤ length codes.now }
    requires few { length codes.now ≤ 64 }
    ensures { Prints (run_lines (reply answer) codes.now) result out.old out.new }
{
    match answer {
        Ok(n) => {
            put_codes(out, &codes[..n]);
            n * 3
        }
        Err(refusal) => {
            let ticks = refusal.ticks();
            put_codes(out, &codes[..ticks]);
            put_refusal(out, ticks * 3, refusal.number(), refusal.index());
            ticks * 3 + LINE
        }
    }
}

/// Writes what a run of the words 0 to 63 from a fresh state with 32 places prints, at the front of the buffer, and counts its characters.
pub fn run_text(input: &[u8], out: &mut [u8; RUN_PRINTS]) -> usize
    ensures { Prints (run_output input.now) result out.old out.new }
{
    let all = count_up();
    let mut masks = [0u32; 64];
    let mut codes = [0u8; 64];
    let fresh = State::fresh(State::PLACES);
    let state = fresh.state;
    let ran = runs::state_runs::run(input, state, &all, &mut masks, &mut codes);
    let answer = ran.answer;
    put_run(answer, &codes, out)
}

/// Reads an image and prints what its run prints. What stands behind the longest image and one character more is left to the reader.
pub fn run_image<R: Reader, W: Writer>(reader: &mut R, writer: &mut W) -> Outcome
    ensures prints { PrintsFor run_output (R.remaining reader.old) (W.contents writer.old) (W.contents writer.new) result }
    ensures over { WritesOver run_output (R.remaining reader.old) (W.contents writer.old) (W.contents writer.new)
        (W.overwritten writer.old) (W.overwritten writer.new) result }
    ensures left { ReadsUpTo IMAGE_READ (R.remaining reader.old) (R.remaining reader.new) result }
    ensures errors { TellsErrors run_output (R.remaining reader.old) R.fails (W.fails writer.old) result }
{
    let mut text = [0u8; IMAGE_READ];
    let n = match console::read_input(reader, &mut text) {
        Input::Text(n) => n,
        Input::Failed(error) => return Outcome::NotRead(error),
    };
    let mut out = [0u8; RUN_PRINTS];
    let count = run_text(&text[..n], &mut out);
    match console::write_output(writer, &out[..count]) {
        Ok(()) => Outcome::Printed,
        Err(error) => Outcome::NotWritten(error),
    }
}

/// The program over memory, where no read fails: what it prints stands from the cursor on, all of it where that has room, and else a front
/// is written and the failure told. Behind it the buffer stays. Of a cursor past the end of its buffer nothing more is promised.
pub fn run_image_in_memory(image: &[u8], out: &mut Cursor<&mut [u8]>) -> Outcome
    ensures prints { PrintsFor run_output (Some image.now) (written_front (cursor_position out.old) (cursor_inner out.old).now)
        (written_front (cursor_position out.new) (cursor_inner out.new).now) result }
    ensures over { WritesOver run_output (Some image.now) (written_front (cursor_position out.old) (cursor_inner out.old).now)
        (written_front (cursor_position out.new) (cursor_inner out.new).now)
        (unwritten_rest (cursor_position out.old) (cursor_inner out.old).now)
        (unwritten_rest (cursor_position out.new) (cursor_inner out.new).now) result }
    ensures errors { TellsErrors run_output (Some image.now) (λ _. ⊥)
        (λ n _. HasNoRoom (cursor_position out.old) (cursor_inner out.old).now n) result }
    ensures fits { cursor_position out.old ≡ 0
        → PrintsWhereItFits (run_output image.now) (cursor_inner out.old).now (cursor_inner out.new).now result }
{
    let mut reader = image;
    run_image(&mut reader, out)
}
