// The calls from C on images: checked, listed and prepared.
ghost use Rattle.std.specs.Prelude.{◌≡◌};
ghost use Rattle.text.specs.frames.Answer.{verdict_reply};
ghost use Rattle.image.specs.Check.{image_verdict};
ghost use Rattle.rows.specs.listing.Listing.{list};
ghost use Rattle.tables.specs.Prepare.{prepare};
ghost use Rattle.fairleadow.specs.AnswersForC.{GivesReplyC};

use crate::telling::tell;

/// Whether an image is in order; counts 0. Refuses with 1 to 3 and 11 to 13.
#[unsafe(no_mangle)]
pub extern "C" fn fairleadow_check_image(image: &[u8], at: &mut usize, made: &mut usize) -> u8
    ensures { GivesReplyC (verdict_reply (image_verdict image.now) 0) result at.new made.new }
{
    let answer = image_check::check_image(image);
    tell(answer, at, made)
}

/// The number of each label's first row, from 0, and how many rows it has, 0 and 0 for none; counts labels. Refuses as the image check
/// does, then with 16.
#[unsafe(no_mangle)]
pub extern "C" fn fairleadow_list_rows(
    image: &[u8],
    firsts: &mut [u16],
    counts: &mut [u16],
    at: &mut usize,
    made: &mut usize,
) -> u8
    ensures told { GivesReplyC (list image.now firsts.old counts.old).reply result at.new made.new }
    ensures firsts { firsts.new ≡ (list image.now firsts.old counts.old).firsts }
    ensures counts { counts.new ≡ (list image.now firsts.old counts.old).counts }
{
    let answer = rows::image_rows::list_rows(image, firsts, counts);
    tell(answer, at, made)
}

/// An image as the table that live calls take, ten bytes a line; counts bytes. Refuses as the image check does, then with 16.
#[unsafe(no_mangle)]
pub extern "C" fn fairleadow_prepare(
    image: &[u8],
    table: &mut [u8],
    at: &mut usize,
    made: &mut usize,
) -> u8
    ensures told { GivesReplyC (prepare image.now table.old).reply result at.new made.new }
    ensures written { table.new ≡ (prepare image.now table.old).buffer }
{
    let answer = tables::preparing::prepare(image, table);
    tell(answer, at, made)
}
