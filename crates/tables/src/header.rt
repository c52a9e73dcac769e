// A table made of its bytes, with what its header tells read once, and the handler, which is read where it is asked.
ghost use Rattle.std.specs.Prelude.{◌≡◌};
ghost use Rattle.image.specs.Decode.{handler_in};
ghost use Rattle.tables.specs.inner.Asked.{Whole};

use crate::Table;
use image::layout::*;
use image::{byte, pair, rows_from};

impl<'a> Table<'a> {
    /// The table that bytes are of which 11 refuses nothing and behind which nothing stands.
    pub fn of(bytes: &'a [u8]) -> Table<'a>
        requires { Whole bytes.now }
        ensures { result.bytes.now ≡ bytes.now }
    {
        let frames = rows_from(bytes) + (pair(bytes, 0, ROW_COUNT) as usize);
        Table {
            bytes,
            frames: frames as u32,
            schemes: byte(bytes, 0, SCHEME_COUNT),
            last: byte(bytes, 0, LAST_LABEL),
        }
    }

    /// The handler's scheme, 0 for none, at most H.
    pub fn handler(self) -> u8
        ensures { result ≡ handler_in self.entry.bytes.now }
    {
        byte(self.bytes, 0, HANDLER)
    }
}
