// Bytes and frames written into a lent buffer.
ghost use Rattle.std.specs.Prelude.{◌≡◌, ◌+◌, ◌*◌, ◌≤◌, length};
ghost use Rattle.words.specs.lists.Sequences.{written};
ghost use Rattle.text.specs.frames.Frame.{byte_text, frame_text, ten_bytes_at, text_of, size};

use crate::digits::{character, characters};
use crate::frames::sizes::*;

/// Writes bytes as they are, from an offset on.
pub fn put_bytes(out: &mut [u8], at: usize, bytes: &[u8])
    requires { at + length bytes.now ≤ length out.old }
    ensures { out.new ≡ written out.old at bytes.now }
{
    let n = bytes.len();
    for k in 0..n {
        out[at + k] = bytes[k];
    }
}

// The two characters of a byte, from an offset on.
#[tactic(auto, using(crate::proofs::frames::FrameLoops::two_written))]
fn put_byte(out: &mut [u8], at: usize, b: u8)
    requires { at + 2 ≤ length out.old }
    ensures { out.new ≡ written out.old at (byte_text b) }
{
    let both = characters(b);
    out[at] = (both % 256) as u8;
    out[at + 1] = (both / 256) as u8;
}

// The same for the byte of a sum. Each character is made by a comparison of its own: by a sum of both, the compiler would no longer add
// eight bytes of a frame at once.
#[tactic(auto, using(crate::proofs::frames::FrameLoops::two_written))]
fn put_sum(out: &mut [u8], at: usize, b: u8)
    requires { at + 2 ≤ length out.old }
    ensures { out.new ≡ written out.old at (byte_text b) }
{
    out[at] = character(b / 16);
    out[at + 1] = character(b % 16);
}

/// The ten bytes of frame f, where contents have ten a frame.
pub fn ten_at(bytes: &[u8], f: usize) -> [u8; FRAME]
    requires { FRAME * f + FRAME ≤ length bytes.now }
    ensures { result ≡ ten_bytes_at bytes.now f }
{
    let mut ten = [0u8; FRAME];
    for k in 0..FRAME {
        ten[k] = bytes[FRAME * f + k];
    }
    ten
}

// Frame f of contents as text, from an offset on. All ten bytes are taken before a character is written: what is written might lie where
// they are read, for all that the compiler sees, and it makes several characters at once only where that cannot be.
fn put_nth(out: &mut [u8], at: usize, bytes: &[u8], f: usize)
    requires room { at + LINE ≤ length out.old }
    requires whole { FRAME * f + FRAME ≤ length bytes.now }
    ensures { out.new ≡ written out.old at (frame_text (ten_bytes_at bytes.now f)) }
{
    let ten = ten_at(bytes, f);
    let mut sum: u32 = 0;
    for k in 0..FRAME {
        let b = ten[k];
        put_byte(out, at + k * 2, b);
        sum += b as u32;
    }
    put_sum(out, at + 2 * FRAME, ((256 - sum % 256) % 256) as u8);
    out[at + DIGITS] = LINE_FEED;
}

/// Writes ten bytes as a frame from an offset on: 23 characters, the digits in capitals.
pub fn put_frame(out: &mut [u8], at: usize, bytes: &[u8])
    requires room { at + LINE ≤ length out.old }
    requires ten { length bytes.now ≡ FRAME }
    ensures { out.new ≡ written out.old at (frame_text bytes.now) }
{
    put_nth(out, at, bytes, 0);
}

/// Writes the text of contents, ten bytes a frame, from an offset on.
pub fn put_text(out: &mut [u8], at: usize, bytes: &[u8])
    requires { at + LINE * size bytes.now ≤ length out.old }
    ensures { out.new ≡ written out.old at (text_of bytes.now) }
{
    let n = bytes.len() / FRAME;
    for f in 0..n {
        put_nth(out, at + f * LINE, bytes, f);
    }
}
