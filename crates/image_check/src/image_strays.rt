// Refusal 12: the kind and the number of one frame, and the order of rows.
ghost use Rattle.std.specs.Prelude.{◌≡◌, ◌+◌, ◌<◌};
ghost use Rattle.text.specs.frames.Frame.{size};
ghost use Rattle.image.specs.Decode.{labels_from, rows_from};
ghost use Rattle.image.specs.Check.{entry_position, label_position, row_position, is_stray_frame};

use image::layout::*;
use image::{byte, label_byte, row_byte};

/// 12 refuses the entry of scheme h: its frame has another kind or number.
pub fn stray_entry(table: &[u8], h: usize) -> bool
    requires { h < size table.now }
    ensures { result ≡ is_stray_frame table.now h (entry_position h) }
{
    byte(table, h, FRAME_KIND) != ENTRY || (byte(table, h, NUMBER) as usize) != h
}

/// 12 refuses label l: its frame has another kind or number.
pub fn stray_label(table: &[u8], l: usize) -> bool
    requires { labels_from table.now + l < size table.now }
    ensures { result ≡ is_stray_frame table.now (labels_from table.now + l) (label_position l) }
{
    label_byte(table, l, FRAME_KIND) != LABEL || (label_byte(table, l, NUMBER) as usize) != l
}

/// 12 refuses row k: its frame has another kind, or it leaves a label below that of the row before it.
pub fn stray_row(table: &[u8], k: usize) -> bool
    requires { rows_from table.now + k < size table.now }
    ensures { result ≡ is_stray_frame table.now (rows_from table.now + k) (row_position k) }
{
    row_byte(table, k, FRAME_KIND) != ROW
        || (k != 0 && row_byte(table, k, FROM) < row_byte(table, k - 1, FROM))
}
