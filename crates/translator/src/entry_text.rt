// The header of an image and its entries, written as frames of ten bytes.
ghost use Rattle.std.specs.Prelude.{◌≡◌, ◌+◌, ◌*◌, ◌≤◌, length};
ghost use Rattle.words.specs.lists.Sequences.{written};
ghost use Rattle.text.specs.declared.frames.sizes.TheConstants.{ROWS};
ghost use Rattle.image.specs.Image.{entry_frame};
ghost use Rattle.chart_rows.specs.Labels.{entry};
ghost use Rattle.chart_rows.specs.inner.ChartContracts.{Begun};
ghost use Rattle.translator.specs.inner.LabelContracts.{OfScheme, Schemed};
ghost use Rattle.translator.specs.inner.LabelBytes.{header_bytes, entry_bytes, up_to};

use chart_rows::chart_labels::note_begins;
use charts::field;
use charts::layout::NEXT0;
use image::layout::{ENTRY, HEADER};
use text::frames::put_bytes;
use text::frames::sizes::FRAME;

/// The header's frame at the front of `out`, for schemes 1 to `highest`, labels 0 to `last` and so many rows; `handler` is 0 or the handler's scheme.
pub fn put_header(out: &mut [u8], highest: u8, last: u8, rows: usize, handler: u8)
    requires room { FRAME ≤ length out.old }
    requires rows_fit { rows ≤ ROWS }
    ensures { out.new ≡ written out.old 0 (header_bytes highest last rows handler) }
{
    let rows0 = (rows / 256) as u8;
    let rows1 = (rows % 256) as u8;
    let bytes = [HEADER, highest, last, rows0, rows1, handler, 0, 0, 0, 0];
    put_bytes(out, 0, &bytes);
}

// The label where performing a scheme starts: its Begin's, where that is a stop, else that of the node after it.
#[tactic(auto, using(crate::proofs::label_text::LabelPuts::entries))]
fn entry_of(records: &[u8], labels: &[u8], begins: &[u8], scheme: u8) -> u8
    requires of_scheme { OfScheme records.now labels.now scheme }
    requires begun { Begun records.now begins.now }
    ensures { result ≡ entry records.now scheme }
{
    let v = begins[scheme as usize] as usize;
    let own = labels[v];
    if own >= 2 {
        return own;
    }
    labels[field(records, v, NEXT0) as usize]
}

fn put_entry(out: &mut [u8], at: usize, scheme: u8, label: u8)
    requires { at + FRAME ≤ length out.old }
    ensures { out.new ≡ written out.old at (entry_frame scheme label) }
{
    let bytes = [ENTRY, scheme, label, 0, 0, 0, 0, 0, 0, 0];
    put_bytes(out, at, &bytes);
}

/// The frames of entries 1 to `highest` from `at` on, each the label where performing the scheme starts.
pub fn put_entries(records: &[u8], labels: &[u8], highest: u8, out: &mut [u8], at: usize)
    requires schemed { Schemed records.now labels.now highest }
    requires room { at + FRAME * highest ≤ length out.old }
    ensures { out.new ≡ written out.old at (up_to (entry_bytes records.now) highest) }
{
    let mut begins = [0u8; 17];
    note_begins(records, &mut begins);
    let n = highest as usize;
    for k in 0..n {
        let scheme = (k + 1) as u8;
        let label = entry_of(records, labels, &begins, scheme);
        put_entry(out, at + FRAME * k, scheme, label);
    }
}
