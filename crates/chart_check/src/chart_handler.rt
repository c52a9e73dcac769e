// The handler, the scheme that is performed when the stack is full; and refusal 19: scheme 1 is marked, or one beside another.
ghost use Rattle.std.specs.Prelude.{◌≡◌, ◌+◌, ◌*◌, ◌≤◌, length};
ghost use Rattle.charts.specs.Chart.{is_handler_mark, handler};
ghost use Rattle.charts.specs.Check.{has_bad_marks};

use charts::field;
use charts::layout::*;
use text::frames::sizes::RECORD;

// Node v is a Begin with the mark.
fn marks_handler(records: &[u8], v: usize) -> bool
    requires { RECORD * v + RECORD ≤ length records.now }
    ensures { result ≡ is_handler_mark records.now v }
{
    field(records, v, KIND) == BEGIN && field(records, v, ARGUMENT) == 1
}

/// The handler's scheme, or 0 where none is marked.
pub fn handler_scheme(records: &[u8]) -> u8
    ensures { result ≡ handler records.now }
{
    let n = records.len() / RECORD;
    let mut highest: u8 = 0;
    for v in 0..n {
        if marks_handler(records, v) {
            let scheme = field(records, v, SCHEME);
            if highest < scheme {
                highest = scheme;
            }
        }
    }
    highest
}

/// 19: scheme 1 is marked, or a second Begin is.
pub fn bad_marks(records: &[u8]) -> bool
    ensures { result ≡ has_bad_marks records.now }
{
    let n = records.len() / RECORD;
    let mut marked = false;
    for v in 0..n {
        if marks_handler(records, v) {
            if marked {
                return true;
            }
            if field(records, v, SCHEME) == 1 {
                return true;
            }
            marked = true;
        }
    }
    false
}
