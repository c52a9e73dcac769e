// An image prepared once for all its ticks: checked, decoded, and where the rows of each label end noted in its frame.
ghost use Rattle.std.specs.Prelude.{◌≡◌, ◌≤◌, ◌-◌, length};
ghost use Rattle.text.specs.frames.Answer.{GivesBuffer};
ghost use Rattle.tables.specs.Prepare.{prepare, is_row_reached, noted_table};
ghost use Rattle.tables.specs.inner.Prepares.{GivesPrepared};
ghost use Rattle.words.specs.lists.Numbers.{lowest};
ghost use Rattle.text.specs.frames.Frame.{size};
ghost use Rattle.text.specs.frames.Verdict.{fine};
ghost use Rattle.image.specs.Check.{table_verdict};

use crate::sources::{Source, Text};
use image::layout::{FROM, LAST_LABEL, ROW_COUNT, SCHEME_COUNT};
use image::{byte, pair, rows_from};
use image_check::read_image;
use text::frames::sizes::{FRAME, LINE, TABLE};
use text::frames::{Refusal, put_bytes};

/// The lowest frame from first up to end whose row leaves label l or one above it, or end.
pub fn skip_below(table: &[u8], first: usize, end: usize, l: usize) -> usize
    requires in_order { first ≤ end }
    requires inside { end ≤ size table.now }
    ensures { result ≡ lowest (is_row_reached table.now l) first (end - first) }
{
    let mut f = first;
    while f < end {
        if l <= byte(table, f, FROM) as usize {
            return f;
        }
        f += 1;
    }
    f
}

// Into the frame of each label goes the first frame of rows of a label above it.
fn note_rows(table: &mut [u8])
    requires { table_verdict table.old ≡ fine }
    ensures { table.new ≡ noted_table table.old }
{
    let labels = 1 + (byte(table, 0, SCHEME_COUNT) as usize);
    let last = byte(table, 0, LAST_LABEL) as usize;
    let mut f = rows_from(table);
    // as the header counts: on 32 bits a length of 64 takes a long division, and a frame's number two registers
    let end = f + (pair(table, 0, ROW_COUNT) as usize);
    for l in 0..last + 1 {
        f = skip_below(table, f, end, l + 1);
        let at = FRAME * (labels + l);
        table[at] = (f % 256) as u8;
        table[at + 1] = (f / 256) as u8;
    }
}

/// The prepared table of an image's text, in front of a buffer with room for any table; counts 0. Refusals: 1 to 3 and 11 to 13 of the image;
/// the buffer then holds what was read. It is no entry point. It is called and not taken in, since every call on an image's text makes a
/// table.
#[inline(never)]
pub fn prepare_table(text: &[u8], table: &mut [u8]) -> Result<usize, Refusal>
    requires { TABLE ≤ length table.old }
    ensures { GivesPrepared text.now table.old result table.new }
{
    read_image(text, table)?;
    let n = FRAME * (text.len() / LINE);
    note_rows(&mut table[..n]);
    Ok(0)
}

/// The prepared table of an image's text, in the first bytes of the buffer; those behind them stay. Refusals: 1 to 3 and 11 to 13 of the
/// image, then 16 where the buffer has less room than ten bytes a line. Success counts the bytes of the table; a refusal leaves the buffer as
/// it was.
pub fn prepare(image: &[u8], table: &mut [u8]) -> Result<usize, Refusal>
    ensures { GivesBuffer (prepare image.now table.old) result table.new }
{
    let mut room = [0u8; TABLE];
    let made = Text::table(image, &mut room)?;
    let n = made.bytes.len();
    if table.len() < n {
        return Err(Refusal::NoRoom);
    }
    put_bytes(table, 0, made.bytes);
    Ok(n)
}
