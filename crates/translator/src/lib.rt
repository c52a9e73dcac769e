//! The translator: a chart's text to the text of its image (`translating`), refused by 10 or 16 where the image is too large (`table`).
//! `entry_text` writes header and entries as frames, `label_text` the labels, `row_text` the rows, each by the paths of `path_text`. The
//! laws of the table stand in its proofs: what the translator writes is accepted, and its rows lead where the walk goes.
#![tactic(auto)]

ghost use Rattle.translator.specs.Capitals.{ImageCapitals};

mod entry_text;
pub mod label_text;
mod path_text;
mod row_text;
mod table;
pub mod translating;

pub use table::{put_image, size_refusal};

/// An image is written in capitals, whatever letters its chart has.
#[tactic(auto, using(crate::proofs::Capitals::an_image_is_in_capitals))]
pub fn an_image_is_in_capitals()
    ensures { ImageCapitals }
{}
