// The call from C that translates a chart.
ghost use Rattle.std.specs.Prelude.{◌≡◌};
ghost use Rattle.translator.specs.Entry.{translate};
ghost use Rattle.fairleadow.specs.AnswersForC.{GivesReplyC};

use crate::telling::tell;

/// A chart's lines as its image's lines; counts characters. Refuses with 1 to 5, 19, 6 to 10 and 16.
#[unsafe(no_mangle)]
pub extern "C" fn fairleadow_translate(
    chart: &[u8],
    image: &mut [u8],
    at: &mut usize,
    made: &mut usize,
) -> u8
    ensures told { GivesReplyC (translate chart.now image.old).reply result at.new made.new }
    ensures written { image.new ≡ (translate chart.now image.old).buffer }
{
    let answer = translator::translating::translate(chart, image);
    tell(answer, at, made)
}
