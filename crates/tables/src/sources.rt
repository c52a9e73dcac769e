// What holds a table: an image's text, for which one is made in a room lent for it, or a prepared table, which needs no room.
ghost use Rattle.std.specs.Prelude.{ℕ, ◌*◌, ◌≡◌, ◌<◌, ◌≤◌, List, None, Some, Err, IfOk, IfErr, if◌then◌else◌};
ghost use Rattle.text.specs.frames.Verdict.{Verdict, refused};
ghost use Rattle.text.specs.frames.Answer.{reply, verdict_reply};
ghost use Rattle.image.specs.Image.{Image};
ghost use Rattle.tables.specs.inner.Sources.{Admits};
ghost use Rattle.tables.specs.Table.{table_end, is_bad_table};

use crate::Table;
use crate::preparing::prepare_table;
use image::layout::ROW_COUNT;
use image::{bad_counts, bad_handler, pair, rows_from};
use text::frames::Refusal;
use text::frames::sizes::{FRAME, LINE, TABLE};

/// What a call makes its ticks by; `ROOM` is how many bytes it needs for a table of its own.
pub trait Source<const ROOM: usize> {
    // what its bytes are refused for, and the image that they hold
    ghost verdict: { List ℕ → Verdict };

    ghost image: { List ℕ → Image };

    /// The table, or why the bytes are refused.
    fn table<'a>(bytes: &'a [u8], room: &'a mut [u8; ROOM]) -> Result<Table<'a>, Refusal>
        ensures admits { IfOk result (λ t. Admits (verdict bytes.now) (image bytes.now) t) }
        ensures refuses { IfErr result (λ r. reply (Err r) ≡ verdict_reply (verdict bytes.now) 0) };

    // its refusals are of 1 to 16: of a run's, these alone change no buffer and no state
    ghost early: { (b : List ℕ) (n i : ℕ) → verdict b ≡ refused n i → (1 ≤ n) × (n ≤ 16) };

    // as of any array's length
    ghost room_fits: { ROOM < 9223372036854775808 };
}

/// An image's text: 1 to 3 and 11 to 13.
pub struct Text;

/// A prepared table: 11.
pub struct Prepared;

impl Source<TABLE> for Text {
    ghost use Rattle.std.proofs.Common.{subst};
    ghost use Rattle.text.proofs.frames.Refuses.{RefusesWith};
    ghost use Rattle.image.proofs.Refuses.{Early, early-image};
    ghost use Rattle.std.proofs.Common.{rules};
    ghost use Rattle.image.specs.Decode.{decoded_image};
    ghost use Rattle.image.specs.Check.{image_verdict};
    ghost use Rattle.text.specs.frames.Frame.{contents};
    ghost use Rattle.tables.specs.Prepare.{noted_table};

    ghost verdict = { image_verdict };

    ghost image = { λ t. decoded_image (contents t) };

    ghost early = { λ t n i e. subst (RefusesWith Early) e (early-image t) };

    ghost room_fits = { Prim.search rules };

    // of an image more is known: its table is the one that a preparation writes
    fn table<'a>(bytes: &'a [u8], room: &'a mut [u8; TABLE]) -> Result<Table<'a>, Refusal>
        ensures admits { IfOk result (λ t. Admits (image_verdict bytes.now) (decoded_image (contents bytes.now)) t) }
        ensures noted { IfOk result (λ t. t.bytes.now ≡ noted_table (contents bytes.now)) }
        ensures refuses { IfErr result (λ r. reply (Err r) ≡ verdict_reply (image_verdict bytes.now) 0) }
    {
        prepare_table(bytes, room)?;
        let n = FRAME * (bytes.len() / LINE);
        Ok(Table::of(&room[..n]))
    }
}

// How many bytes the frames have that the header counts, or none where 11 refuses the bytes. Bytes behind these frames are no part of the
// table. It is told at once, since with a test by itself the product is made twice.
fn front_length(bytes: &[u8]) -> Option<usize>
    ensures { result ≡ (if is_bad_table bytes.now then None else Some (FRAME * table_end bytes.now)) }
{
    if bytes.len() < FRAME || bad_counts(bytes) || bad_handler(bytes) {
        return None;
    }
    let n = FRAME * (rows_from(bytes) + (pair(bytes, 0, ROW_COUNT) as usize));
    if bytes.len() < n {
        return None;
    }
    Some(n)
}

impl Source<0> for Prepared {
    ghost use Rattle.std.proofs.Common.{arith};
    ghost use Rattle.std.proofs.lemmas.Grind.{common_steps};
    ghost use Rattle.std.proofs.Common.{rules};
    ghost use Rattle.text.specs.declared.frames.refusals.TheConstants.{BAD_HEADER};
    ghost use Rattle.text.specs.frames.Verdict.{when};
    ghost use Rattle.tables.specs.Table.{table_image};

    ghost verdict = { λ b. when BAD_HEADER (is_bad_table b) };

    ghost image = { table_image };

    ghost early = { λ b n i e. Prim.grind (arith, common_steps) };

    ghost room_fits = { Prim.search rules };

    fn table<'a>(bytes: &'a [u8], _room: &'a mut [u8; 0]) -> Result<Table<'a>, Refusal> {
        match front_length(bytes) {
            Some(n) => Ok(Table::of(&bytes[..n])),
            None => Err(Refusal::BadHeader),
        }
    }
}
