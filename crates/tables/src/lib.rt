//! Prepared tables: an image decoded once for all its ticks, with the place of each label's rows noted in it (`preparing`).
//! `Table` is one that 11 lets pass, whatever its bytes are: `sources` makes it of an image or of any bytes, `header` reads its header, `labels` its
//! entries and labels, and `row_ranges` where the rows of a label stand.
#![tactic(auto)]

ghost use Rattle.std.specs.Prelude.{ℕ, ◌≡◌, ◌<◌, slice_index};
ghost use Rattle.image.specs.Decode.{scheme_count, last_label};
ghost use Rattle.tables.specs.Prepared.{PreparedOnSuccess};
ghost use Rattle.tables.specs.Table.{table_end};
ghost use Rattle.tables.specs.inner.Asked.{Whole};

mod header;
mod labels;
pub mod preparing;
pub mod row_ranges;
pub mod sources;

/// A label as the machine reads it: its kind (0 plain, 1 and 2 a call, 3 return, 4 home), the scheme that it calls (0 for none, at most H),
/// the scheme that it belongs to, the result that it writes (0 to 2 mean something) and the 32 bits of its mask.
#[derive(Clone, Copy)]
pub struct Label {
    pub kind: u8,
    pub called: u8,
    pub owner: u8,
    pub result: u8,
    pub mask: u32,
}

/// A prepared table that 11 lets pass, ten bytes a frame, with nothing behind it; and, read once of its header, how many frames it has, the
/// header's too, H, how many schemes, and M, its highest label. It is a value: a copy reads the same bytes. The frames are counted in 32
/// bits, which a small processor keeps in one register.
#[derive(Clone, Copy)]
pub struct Table<'a> {
    pub bytes: &'a [u8],
    pub frames: u32,
    pub schemes: u8,
    pub last: u8,
    ghost whole: { Whole bytes.now },
    ghost frames_read: { frames ≡ table_end bytes.now },
    ghost schemes_read: { schemes ≡ scheme_count bytes.now },
    ghost last_read: { last ≡ last_label bytes.now },
    ghost small: { (k : ℕ) → slice_index bytes.now k < 256 },
}

/// A prepared table, also with bytes behind it, holds the image that it was prepared from, and is not refused.
pub fn a_prepared_table_holds_its_image()
    ensures on_success { PreparedOnSuccess }
{}
