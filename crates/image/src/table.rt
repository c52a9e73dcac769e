// What stands in a decoded table: bytes, two-byte and four-byte fields, and where labels and rows begin.
ghost use Rattle.std.specs.Prelude.{◌≡◌, ◌+◌, ◌*◌, ◌-◌, ◌<◌, length};
ghost use Rattle.text.specs.frames.Frame.{size, field, pair_at, quad_at};
ghost use Rattle.image.specs.Decode.{labels_from, rows_from};
ghost use Rattle.image.specs.Check.{is_filled};
ghost use Rattle.image.specs.inner.FrameContracts.{BytesAsked};

use crate::layout::{LABEL_MASK, LAST_LABEL, SCHEME_COUNT};
use text::frames::sizes::FRAME;

/// Byte k of frame f of a decoded table, ten bytes a frame.
pub fn byte(table: &[u8], f: usize, k: usize) -> u8
    requires { FRAME * f + k < length table.now }
    ensures { result ≡ field table.now f k }
{
    table[FRAME * f + k]
}

/// Two bytes of frame f from k on, the high one first.
pub fn pair(table: &[u8], f: usize, k: usize) -> u16
    requires { FRAME * f + k + 1 < length table.now }
    ensures { result ≡ pair_at table.now f k }
{
    (byte(table, f, k) as u16) * 256 + (byte(table, f, k + 1) as u16)
}

/// Four bytes of frame f from k on, the high one first.
pub fn quad(table: &[u8], f: usize, k: usize) -> u32
    requires { FRAME * f + k + 3 < length table.now }
    ensures { result ≡ quad_at table.now f k }
{
    (pair(table, f, k) as u32) * 65536 + (pair(table, f, k + 2) as u32)
}

/// The frame of label 0: header and entries stand before it.
pub fn labels_from(table: &[u8]) -> usize
    requires { 0 < size table.now }
    ensures { result ≡ labels_from table.now }
{
    1 + (byte(table, 0, SCHEME_COUNT) as usize)
}

/// The frame of row 0: the labels stand before it.
pub fn rows_from(table: &[u8]) -> usize
    requires { 0 < size table.now }
    ensures { result ≡ rows_from table.now }
{
    2 + (byte(table, 0, SCHEME_COUNT) as usize) + (byte(table, 0, LAST_LABEL) as usize)
}

/// Byte k of label l's frame.
pub fn label_byte(table: &[u8], l: usize, k: usize) -> u8
    requires label { labels_from table.now + l < size table.now }
    requires byte { k < FRAME }
    ensures { result ≡ field table.now (labels_from table.now + l) k }
{
    byte(table, labels_from(table) + l, k)
}

/// The mask of label l, 32 bits.
pub fn label_mask(table: &[u8], l: usize) -> u32
    requires { labels_from table.now + l < size table.now }
    ensures { result ≡ quad_at table.now (labels_from table.now + l) LABEL_MASK }
{
    quad(table, labels_from(table) + l, LABEL_MASK)
}

/// Byte j of row k's frame.
pub fn row_byte(table: &[u8], k: usize, j: usize) -> u8
    requires row { rows_from table.now + k < size table.now }
    requires byte { j < FRAME }
    ensures { result ≡ field table.now (rows_from table.now + k) j }
{
    byte(table, rows_from(table) + k, j)
}

/// Two bytes of row k's frame, from j on.
pub fn row_pair(table: &[u8], k: usize, j: usize) -> u16
    requires row { rows_from table.now + k < size table.now }
    requires both_bytes { j + 1 < FRAME }
    ensures { result ≡ pair_at table.now (rows_from table.now + k) j }
{
    pair(table, rows_from(table) + k, j)
}

/// Whether a byte of frame f from k up to end is not 0.
pub fn filled_to(table: &[u8], f: usize, k: usize, end: usize) -> bool
    requires { BytesAsked table.now f k end }
    ensures { result ≡ is_filled table.now f k (end - k) }
{
    for j in k..end {
        if byte(table, f, j) != 0 {
            return true;
        }
    }
    false
}
