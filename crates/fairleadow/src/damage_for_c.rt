// The calls from C that tell whether bytes changed: of a prepared table, and of any bytes.
ghost use Rattle.std.specs.Prelude.{◌≡◌};
ghost use Rattle.text.specs.frames.Answer.{verdict_reply};
ghost use Rattle.table_check.specs.TableCheck.{prepared_verdict};
ghost use Rattle.crc.specs.Crc.{crc};
ghost use Rattle.fairleadow.specs.AnswersForC.{GivesReplyC};

use crate::telling::tell;

/// Whether bytes are just what some image is prepared to; counts 0. Refuses with 11 to 13.
#[unsafe(no_mangle)]
pub extern "C" fn fairleadow_check_table(table: &[u8], at: &mut usize, made: &mut usize) -> u8
    ensures { GivesReplyC (verdict_reply (prepared_verdict table.now) 0) result at.new made.new }
{
    let answer = table_check::check_table(table);
    tell(answer, at, made)
}

/// The CRC-32 of bytes, carried on from `sum`, which is that of the bytes before them, or 0. Refuses nothing.
#[unsafe(no_mangle)]
pub extern "C" fn fairleadow_sum(sum: u32, bytes: &[u8]) -> u32
    ensures { result ≡ crc sum bytes.now }
{
    crc::sum(sum, bytes)
}
