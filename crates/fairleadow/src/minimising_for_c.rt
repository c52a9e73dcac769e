// The call from C that joins the labels of an image.
ghost use Rattle.std.specs.Prelude.{◌≡◌};
ghost use Rattle.minimising.specs.Entry.{minimise};
ghost use Rattle.fairleadow.specs.AnswersForC.{GivesReplyC};

use crate::telling::tell;

/// The lines of an image that ticks the same with its labels joined where they act alike; counts characters. Refuses as the image check
/// does, then with 23 and 16.
#[unsafe(no_mangle)]
pub extern "C" fn fairleadow_minimise(
    image: &[u8],
    smaller: &mut [u8],
    at: &mut usize,
    made: &mut usize,
) -> u8
    ensures told { GivesReplyC (minimise image.now smaller.old).reply result at.new made.new }
    ensures written { smaller.new ≡ (minimise image.now smaller.old).buffer }
{
    let answer = minimising::minimise(image, smaller);
    tell(answer, at, made)
}
