// The frame that each label notes.
ghost use Rattle.std.specs.Prelude.{◌≡◌, ◌≤◌};
ghost use Rattle.words.specs.lists.Numbers.{lowest};
ghost use Rattle.text.specs.frames.Frame.{size};
ghost use Rattle.image.specs.Decode.{rows_from};
ghost use Rattle.table_check.specs.TableCheck.{is_misnoted};

use image::{labels_from, rows_from};
use tables::preparing::skip_below;
use tables::row_ranges::low_pair;

/// The lowest frame of a label that does not note where its rows end, or how many frames there are, n.
pub fn lowest_misnoted(table: &[u8], n: usize) -> usize
    requires all_frames { n ≡ size table.now }
    requires rows_inside { rows_from table.now ≤ n }
    ensures { result ≡ lowest (is_misnoted table.now) 0 n }
{
    let labels = labels_from(table);
    let rows = rows_from(table);
    let mut end = rows;
    let mut f = labels;
    while f < rows {
        end = skip_below(table, end, n, f - labels + 1);
        if (low_pair(table, f, 0) as usize) != end {
            return f;
        }
        f += 1;
    }
    n
}
