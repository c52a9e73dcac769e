// The translator's program between its input and its output.
ghost use Rattle.std.specs.Prelude.{◌≡◌, Some};
ghost use Rattle.output.specs.Prints.{Prints};
ghost use Rattle.output.specs.TranslateProgram.{translate_output};
ghost use Rattle.std.specs.Io.Cursor.{cursor_position, cursor_inner};
ghost use Rattle.console.specs.Memory.{written_front, unwritten_rest, HasNoRoom};
ghost use Rattle.console.specs.Outcome.{PrintsFor, WritesOver, ReadsUpTo, TellsErrors, PrintsWhereItFits};

use crate::output_lines::put_refusal;
use console::streams::{Reader, Writer};
use console::{Input, Outcome};
use std::io::Cursor;
use text::frames::sizes::{CHART_TEXT, IMAGE_TEXT, LINE};

/// One character more than the longest chart: of a longer text no more needs to be read.
pub const CHART_READ: usize = CHART_TEXT + 1;

/// The characters of the longest image.
pub const TRANSLATE_PRINTS: usize = IMAGE_TEXT;

/// Writes the image of a chart, or the frame that tells why there is none, at the front of the buffer, and counts its characters.
pub fn translate_text(input: &[u8], out: &mut [u8; TRANSLATE_PRINTS]) -> usize
    ensures { Prints (translate_output input.now) result out.old out.new }
{
    let answer = translator::translating::translate(input, out);
    match answer {
        Ok(count) => count,
        Err(refusal) => {
            put_refusal(out, 0, refusal.number(), refusal.index());
            LINE
        }
    }
}

/// Reads a chart and prints its image, or the frame that tells why there is none. What stands behind the longest chart and one character
/// more is left to the reader.
pub fn translate<R: Reader, W: Writer>(reader: &mut R, writer: &mut W) -> Outcome
    ensures prints { PrintsFor translate_output (R.remaining reader.old) (W.contents writer.old) (W.contents writer.new) result }
    ensures over { WritesOver translate_output (R.remaining reader.old) (W.contents writer.old) (W.contents writer.new)
        (W.overwritten writer.old) (W.overwritten writer.new) result }
    ensures left { ReadsUpTo CHART_READ (R.remaining reader.old) (R.remaining reader.new) result }
    ensures errors { TellsErrors translate_output (R.remaining reader.old) R.fails (W.fails writer.old) result }
{
    let mut text = [0u8; CHART_READ];
    let n = match console::read_input(reader, &mut text) {
        Input::Text(n) => n,
        Input::Failed(error) => return Outcome::NotRead(error),
    };
    let mut out = [0u8; TRANSLATE_PRINTS];
    let count = translate_text(&text[..n], &mut out);
    match console::write_output(writer, &out[..count]) {
        Ok(()) => Outcome::Printed,
        Err(error) => Outcome::NotWritten(error),
    }
}

/// The program over memory, where no read fails: what it prints stands from the cursor on, all of it where that has room, and else a front
/// is written and the failure told. Behind it the buffer stays. Of a cursor past the end of its buffer nothing more is promised.
pub fn translate_in_memory(chart: &[u8], out: &mut Cursor<&mut [u8]>) -> Outcome
    ensures prints { PrintsFor translate_output (Some chart.now) (written_front (cursor_position out.old) (cursor_inner out.old).now)
        (written_front (cursor_position out.new) (cursor_inner out.new).now) result }
    ensures over { WritesOver translate_output (Some chart.now) (written_front (cursor_position out.old) (cursor_inner out.old).now)
        (written_front (cursor_position out.new) (cursor_inner out.new).now)
        (unwritten_rest (cursor_position out.old) (cursor_inner out.old).now)
        (unwritten_rest (cursor_position out.new) (cursor_inner out.new).now) result }
    ensures errors { TellsErrors translate_output (Some chart.now) (λ _. ⊥)
        (λ n _. HasNoRoom (cursor_position out.old) (cursor_inner out.old).now n) result }
    ensures fits { cursor_position out.old ≡ 0
        → PrintsWhereItFits (translate_output chart.now) (cursor_inner out.old).now (cursor_inner out.new).now result }
{
    let mut reader = chart;
    translate(&mut reader, out)
}
