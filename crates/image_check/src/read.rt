// An image's text: read and checked, refusals 1 to 3 and 11 to 13.
ghost use Rattle.std.specs.Prelude.{◌≡◌, ◌≤◌, length};
ghost use Rattle.text.specs.frames.Answer.{reply, verdict_reply};
ghost use Rattle.text.specs.frames.Read.{read_buffer};
ghost use Rattle.image.specs.Check.{image_verdict};

use crate::check::check_table;
use text::frames::Refusal;
use text::frames::sizes::{FRAME, IMAGE_TEXT, TABLE};
use text::reading::read_text;

/// Tries an image's text, 1 to 3 before 11 to 13, and leaves the table that was read, ten bytes a frame, at the front of the lent buffer.
/// No entry point: the buffer is scratch space, which only 1 leaves as it was.
pub fn read_image(text: &[u8], table: &mut [u8]) -> Result<usize, Refusal>
    requires { TABLE ≤ length table.old }
    ensures answered { reply result ≡ verdict_reply (image_verdict text.now) 0 }
    ensures stored { table.new ≡ read_buffer IMAGE_TEXT text.now table.old }
{
    let frames = read_text(text, IMAGE_TEXT, table)?;
    let n = FRAME * frames;
    check_table(&table[..n])
}

/// Tries an image's text, of up to 29,831 characters, and nothing else: 1 to 3 before 11 to 13. Success counts 0.
pub fn check_image(text: &[u8]) -> Result<usize, Refusal>
    ensures { reply result ≡ verdict_reply (image_verdict text.now) 0 }
{
    let mut table = [0u8; TABLE];
    read_image(text, &mut table)
}
