// Refusals 11 to 13 of a decoded table.
ghost use Rattle.std.specs.Prelude.{◌≡◌, ◌<◌};
ghost use Rattle.text.specs.frames.Frame.{size};
ghost use Rattle.text.specs.frames.Answer.{reply, verdict_reply};
ghost use Rattle.image.specs.Check.{table_verdict};

use crate::image_faults::lowest_fault;
use crate::positions::{bad_header, lowest_stray};
use text::frames::Refusal;
use text::frames::sizes::FRAME;

/// 11 to 13 of a table of at least one frame; success counts 0. A table in which 12 and 13 find no frame is done with one pass; else 12 on any frame goes before 13.
#[tactic(auto, using(crate::proofs::TableCases::table_cases))]
pub fn check_table(table: &[u8]) -> Result<usize, Refusal>
    requires { 0 < size table.now }
    ensures { reply result ≡ verdict_reply (table_verdict table.now) 0 }
{
    if bad_header(table) {
        return Err(Refusal::BadHeader);
    }
    let frames = table.len() / FRAME;
    let fault = lowest_fault(table);
    if frames <= fault {
        return Ok(0);
    }
    let stray = lowest_stray(table, frames);
    if stray < frames {
        return Err(Refusal::StrayFrame(stray));
    }
    Err(Refusal::BadContent(fault))
}
