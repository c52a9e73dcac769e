// Where the rows of a label stand in a prepared table.
ghost use Rattle.std.specs.Prelude.{◌≡◌, ◌+◌, ◌*◌, ◌≤◌, ◌<◌};
ghost use Rattle.text.specs.frames.Frame.{size, field};
ghost use Rattle.tables.specs.Table.{first_on, end_on};

use crate::Table;
use image::byte;
use text::frames::sizes::FRAME;

/// Two bytes of frame f from k on, the low one first, of any bytes in frames.
pub fn low_pair(bytes: &[u8], f: usize, k: usize) -> u16
    requires frame { f < size bytes.now }
    requires inside { k + 1 < FRAME }
    ensures { result ≡ field bytes.now f k + field bytes.now f (k + 1) * 256 }
{
    (byte(bytes, f, k) as u16) + (byte(bytes, f, k + 1) as u16) * 256
}

impl<'a> Table<'a> {
    /// The frame at which the rows of label l, 2 to M, begin: that which the label before it notes. It may be any of 0 to 65,535.
    pub fn first_of(self, l: usize) -> usize
        requires low { 2 ≤ l }
        requires high { l ≤ self.last }
        ensures { result ≡ first_on self.entry.bytes.now l }
    {
        low_pair(self.bytes, (self.schemes as usize) + l, 0) as usize
    }

    /// The frame behind the rows of label l, 2 to M: that which it notes, or the end of the table where that is no later.
    pub fn end_of(self, l: usize) -> usize
        requires low { 2 ≤ l }
        requires high { l ≤ self.last }
        ensures { result ≡ end_on self.entry.bytes.now l }
    {
        let end = low_pair(self.bytes, (self.schemes as usize) + l + 1, 0) as u32;
        if end < self.frames {
            return end as usize;
        }
        self.frames as usize
    }
}
