//! The image: the table of entries, labels and rows, as frames and decoded, and what the image check asks of it.
//! The code has the layout of a frame (`layout`) and how a decoded table is read (`table`), its counts tried as refusal 11 does (`counts`).
#![tactic(auto)]

mod counts;
pub mod layout;
mod table;

pub use counts::{bad_counts, bad_handler};
pub use table::{
    byte, filled_to, label_byte, label_mask, labels_from, pair, quad, row_byte, row_pair, rows_from,
};
