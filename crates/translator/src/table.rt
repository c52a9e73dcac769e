// The image of an accepted chart: whether 10 or 16 refuses it, and its table as bytes and as text.
ghost use Rattle.std.specs.Prelude.{◌≡◌, ◌≤◌};
ghost use Rattle.image.specs.Image.{image_text};
ghost use Rattle.chart_rows.specs.inner.PathContracts.{Noted};
ghost use Rattle.translator.specs.inner.LabelBytes.{Put};
ghost use Rattle.translator.specs.Table.{table};
ghost use Rattle.translator.specs.inner.TranslatorContracts.{ImageRoom};
ghost use Rattle.translator.specs.inner.ImageBytes.{table_bytes, size_refusal};

use crate::entry_text::{put_entries, put_header};
use crate::label_text::{put_fixed, put_labels};
use crate::row_text::put_rows;
use chart_check::handler_scheme;
use chart_rows::{COUNTED, bound_rows, count_rows};
use chart_text::spread;
use text::frames::Refusal;
use text::frames::sizes::*;

/// 10, or 16 where there is no room for so many frames before the rows and for the rows. Where a bound on the rows excludes both,
/// the paths are not walked to count them.
pub fn size_refusal(records: &[u8], notes: &[u8], before: usize, room: usize) -> Option<Refusal>
    requires noted { Noted records.now notes.now }
    requires before_fits { before ≤ 1024 }
    ensures { result ≡ size_refusal records.now before room }
{
    let bound = bound_rows(records, notes);
    if bound <= ROWS {
        if LINE * (before + bound) <= room {
            return None;
        }
    }
    let total = count_rows(records, notes, COUNTED);
    if total > ROWS {
        return Some(Refusal::ManyRows);
    }
    if room < LINE * (before + total) {
        return Some(Refusal::NoRoom);
    }
    None
}

// The bytes of the image's frames. `own` nodes have a label of their own. The header comes last: it has the number of rows.
fn put_table(records: &[u8], notes: &[u8], highest: u8, own: usize, out: &mut [u8]) -> usize
    requires { ImageRoom records.now notes.now highest own out.old }
    ensures { Put out.old 0 (table_bytes records.now) result out.new }
{
    put_entries(records, notes, highest, out, FRAME);
    let fixed = FRAME + FRAME * (highest as usize);
    put_fixed(out, fixed);
    let first = fixed + 20;
    put_labels(records, notes, out, first);
    let row = first + FRAME * own;
    let end = put_rows(records, notes, out, row);
    let handler = handler_scheme(records);
    put_header(out, highest, (own + 1) as u8, (end - row) / FRAME, handler);
    end
}

/// The image's text, and how many characters it has. The bytes first, and then all of them made into text in one pass, which the compiler makes of many characters at once.
pub fn put_image(records: &[u8], notes: &[u8], highest: u8, own: usize, out: &mut [u8]) -> usize
    requires { ImageRoom records.now notes.now highest own out.old }
    ensures { Put out.old 0 (image_text (table records.now)) result out.new }
{
    let end = put_table(records, notes, highest, own, out);
    let n = end / FRAME;
    spread(out, n);
    LINE * n
}
