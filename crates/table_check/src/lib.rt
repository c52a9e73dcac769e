//! Whether a table is exactly what the preparation writes for some image: refusals 11 to 13 of a table (`placing` tries 12 and the fields
//! of 13), and the frame that each label notes (`notes`).
#![tactic(auto)]

ghost use Rattle.std.specs.Prelude.{◌≡◌};
ghost use Rattle.text.specs.frames.Answer.{reply, verdict_reply};
ghost use Rattle.table_check.specs.TableCheck.{is_no_table, prepared_verdict};
ghost use Rattle.table_check.specs.Laws.{PassesPrepared, PassesNoOther};

mod notes;
mod placing;

use image_check::bad_header;
use notes::lowest_misnoted;
use placing::{lowest_bad, lowest_displaced};
use text::frames::Refusal;
use text::frames::sizes::FRAME;

// 11; of no bytes at all there is no header to read.
#[tactic(auto, using(crate::proofs::Passed::header_told))]
fn no_table(table: &[u8]) -> bool
    ensures { result ≡ is_no_table table.now }
{
    if table.is_empty() {
        return true;
    }
    table.len() % FRAME != 0 || bad_header(table)
}

/// Whether a table, without anything behind it, is what the preparation writes for some image that the image check accepts.
///
/// Refusals, in this order: 11 a header that no image has, or a length that is not that of the frames which it counts; 12 the lowest entry
/// or row that stands in a wrong place; 13 the lowest frame with a field that no image has; 13 the lowest frame of a label that does not
/// note where its rows end. Success counts 0.
#[tactic(auto, using(crate::proofs::Passed::header_told), unfolding(crate::specs::TableCheck::prepared_verdict))]
pub fn check_table(table: &[u8]) -> Result<usize, Refusal>
    ensures { reply result ≡ verdict_reply (prepared_verdict table.now) 0 }
{
    if no_table(table) {
        return Err(Refusal::BadHeader);
    }
    let frames = table.len() / FRAME;
    let displaced = lowest_displaced(table, frames);
    if displaced < frames {
        return Err(Refusal::StrayFrame(displaced));
    }
    let bad = lowest_bad(table, frames);
    if bad < frames {
        return Err(Refusal::BadContent(bad));
    }
    let misnoted = lowest_misnoted(table, frames);
    if misnoted < frames {
        return Err(Refusal::BadContent(misnoted));
    }
    Ok(0)
}

/// Every table that the preparation writes passes, and every table that passes is what it writes for an image that is accepted.
#[tactic(auto, using(crate::proofs::Prepared::prepared_alone))]
pub fn a_table_that_passes_is_a_prepared_one()
    ensures prepared { PassesPrepared }
    ensures no_other { PassesNoOther }
{}
