// The rows of each label of a prepared table: the number of the first and how many there are, read off the frames at which a tick looks.
ghost use Rattle.std.specs.Prelude.{◌≡◌, ◌≤◌, ◌<◌, length};
ghost use Rattle.words.specs.lists.Sequences.{over};
ghost use Rattle.tables.specs.Table.{table_image};
ghost use Rattle.rows.specs.listing.Listing.{first_rows, row_counts, GivesListing};
ghost use Rattle.rows.specs.inner.ListingContracts.{Listable, RowsOf, list_table};

use image::rows_from;
use tables::Table;
use text::frames::Refusal;

// The number of a label's first row and how many it has.
#[derive(Drop)]
struct Rows {
    first: u16,
    count: u16,
}

// The rows of label l, 0 and 0 where there are none; labels 0 and 1 have none.
fn rows_of(table: Table, l: usize) -> Rows
    requires listable { Listable table.bytes.now }
    requires high { l ≤ table.last }
    ensures { RowsOf (table_image table.entry.bytes.now) l result }
{
    if l < 2 {
        return Rows { first: 0, count: 0 };
    }
    let frame = table.first_of(l);
    let end = table.end_of(l);
    let before = rows_from(table.bytes);
    if frame == end {
        return Rows { first: 0, count: 0 };
    }
    let first = (frame - before) as u16;
    let count = (end - frame) as u16;
    Rows { first, count }
}

// The rows of the labels 0 to M, each buffer with room for them.
fn fill_listing(table: Table, firsts: &mut [u16], counts: &mut [u16])
    requires listable { Listable table.bytes.now }
    requires firsts_room { table.last < length firsts.old }
    requires counts_room { table.last < length counts.old }
    ensures firsts { firsts.new ≡ over (first_rows (table_image table.entry.bytes.now)) firsts.old }
    ensures counts { counts.new ≡ over (row_counts (table_image table.entry.bytes.now)) counts.old }
{
    for l in 0..(table.last as usize) + 1 {
        let rows = rows_of(table, l);
        firsts[l] = rows.first;
        counts[l] = rows.count;
    }
}

/// Into two buffers, for each of the labels 0 to M: the number of its first row among the table's, from 0, and how many rows it has; 0 and
/// 0 where it has none. Refusal: 16 where either buffer has less room than there are labels, and both stay as they were. Success counts
/// the labels.
pub fn list_table(table: Table, firsts: &mut [u16], counts: &mut [u16]) -> Result<usize, Refusal>
    requires { Listable table.bytes.now }
    ensures { GivesListing (list_table table.entry.bytes.now firsts.old counts.old)
        result firsts.new counts.new }
{
    let labels = (table.last as usize) + 1;
    if firsts.len() < labels {
        return Err(Refusal::NoRoom);
    }
    if counts.len() < labels {
        return Err(Refusal::NoRoom);
    }
    fill_listing(table, firsts, counts);
    Ok(labels)
}
