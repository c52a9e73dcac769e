// The entry point to the little charts: the text of one of them, told by how many frames it has and by its number.
ghost use Rattle.std.specs.Prelude.{◌≡◌, ◌<◌};
ghost use Rattle.text.specs.frames.Frame.{size};
ghost use Rattle.text.specs.frames.Answer.{GivesBuffer};
ghost use Rattle.little_charts.specs.Little.{little_chart};
ghost use Rattle.little_charts.specs.Promises.{little_total};
ghost use Rattle.little_fetch.specs.inner.SeekContracts.{FewFrames, total};
ghost use Rattle.little_fetch.specs.inner.Trails.{unpacked};

use crate::little_numbers::node;
use crate::little_seek::seek_first;
use text::frames::sizes::{LINE, RECORD};
use text::frames::{Refusal, put_bytes, put_text};

// How many little charts have so many frames.
fn total(frames: usize) -> usize
    ensures { result ≡ total frames }
{
    match frames {
        2 => 2,
        3 => 18,
        4 => 648,
        _ => 0,
    }
}

// The records of the numbers that are packed, the last one's lowest.
#[tactic(auto, using(crate::proofs::fetching::Unpacking::unpacking))]
fn unpack(records: &mut [u8], numbers: u32)
    requires { FewFrames records.old }
    ensures { records.new ≡ unpacked (size records.old) (size records.old) numbers }
{
    let n = records.len() / RECORD;
    let mut v = n;
    let mut rest = numbers;
    while 0 < v {
        v -= 1;
        let ten = node(n, (rest % 32) as usize);
        put_bytes(records, RECORD * v, &ten);
        rest = rest / 32;
    }
}

// The text is written, or there is no room, which is 16. The records are those that it is written from.
fn fetch(records: &mut [u8], number: usize, text: &mut [u8]) -> Result<usize, Refusal>
    requires few { FewFrames records.old }
    requires low { number < little_total (size records.old) }
    ensures { GivesBuffer (little_chart (size records.old) number text.old) result text.new }
{
    let n = records.len() / RECORD;
    let count = LINE * n;
    if text.len() < count {
        return Err(Refusal::NoRoom);
    }
    let numbers = seek_first(n, number).unwrap_or(0);
    unpack(records, numbers);
    put_text(text, 0, records);
    Ok(count)
}

/// The text of the little chart of a number, counted from 0 among those with as many frames. A frame count outside 2 to 4 and a number past
/// the last one are 24, then a buffer without room is 16. Counts characters; a refusal leaves the buffer as it was.
pub fn little_chart(frames: usize, number: usize, text: &mut [u8]) -> Result<usize, Refusal>
    ensures { GivesBuffer (little_chart frames number text.old) result text.new }
{
    if total(frames) <= number {
        return Err(Refusal::NoLittleChart);
    }
    let mut records = [0u8; 40];
    let end = RECORD * frames;
    fetch(&mut records[..end], number, text)
}
