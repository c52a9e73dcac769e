// The counts and the handler of the header, as far as refusal 11 tries them by themselves.
ghost use Rattle.std.specs.Prelude.{◌≡◌, ◌<◌};
ghost use Rattle.text.specs.frames.Frame.{size};
ghost use Rattle.image.specs.Check.{has_bad_counts, has_bad_handler};

use crate::layout::*;
use crate::table::{byte, pair};

// ROWS, in the two bytes of the header's count.
const MOST_ROWS: u16 = 1024;

/// 11 refuses the counts: H is not 1 to 16, M is 0, or there are more than 1,024 rows.
pub fn bad_counts(table: &[u8]) -> bool
    requires { 0 < size table.now }
    ensures { result ≡ has_bad_counts table.now }
{
    let schemes = byte(table, 0, SCHEME_COUNT);
    schemes == 0
        || 16 < schemes
        || byte(table, 0, LAST_LABEL) == 0
        || MOST_ROWS < pair(table, 0, ROW_COUNT)
}

/// 11 refuses the handler: it is neither 0 nor a scheme of 2 to H.
pub fn bad_handler(table: &[u8]) -> bool
    requires { 0 < size table.now }
    ensures { result ≡ has_bad_handler table.now }
{
    let handler = byte(table, 0, HANDLER);
    handler != 0 && (handler < 2 || byte(table, 0, SCHEME_COUNT) < handler)
}
