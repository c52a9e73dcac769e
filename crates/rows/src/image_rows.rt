// The entry point to the rows of each label of an image.
ghost use Rattle.rows.specs.listing.Listing.{list, GivesListing};

use crate::listing::list_table;
use tables::sources::{Source, Text};
use text::frames::Refusal;
use text::frames::sizes::TABLE;

/// The rows of each label of an image's text, by their numbers, from 0: into two buffers, of the labels 0 to M, the first row and how many
/// there are, 0 and 0 where there are none. Refusals: 1 to 3 and 11 to 13 of the image, then 16 where either buffer has less room than there
/// are labels. Success counts the labels; a refusal leaves both buffers as they were.
pub fn list_rows(image: &[u8], firsts: &mut [u16], counts: &mut [u16]) -> Result<usize, Refusal>
    ensures { GivesListing (list image.now firsts.old counts.old)
        result firsts.new counts.new }
{
    let mut room = [0u8; TABLE];
    let table = Text::table(image, &mut room)?;
    list_table(table, firsts, counts)
}
