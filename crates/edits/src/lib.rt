//! What the programs of cases share: bytes edited at places, which makes a faulty input from a good one, and the frame that is printed of
//! an answer.
#![tactic(auto)]

ghost use Rattle.std.specs.Prelude.{◌≡◌};
ghost use Rattle.text.specs.frames.Answer.{reply};
ghost use Rattle.edits.specs.inner.Patch.{patched_bytes};
ghost use Rattle.edits.specs.inner.Report.{numbered_line, report_line};

use text::frames::sizes::LINE;
use text::frames::{Refusal, put_frame};

/// Edits bytes: of each pair the first is a place and the second the byte that is put there. A place past the end changes nothing.
pub fn patch(bytes: &mut [u8], edits: &[u8])
    ensures { bytes.new ≡ patched_bytes bytes.old edits.now }
{
    let mut i: usize = 0;
    while i + 1 < edits.len() {
        let at = edits[i] as usize;
        if at < bytes.len() {
            bytes[at] = edits[i + 1];
        }
        i += 2;
    }
}

fn line_of(entry: u8, number: u8, index: usize, count: usize, bytes: usize) -> [u8; LINE]
    ensures { result ≡ numbered_line entry number index count bytes }
{
    let ten = [
        entry,
        number,
        (index / 256 % 256) as u8,
        (index % 256) as u8,
        (count / 256 % 256) as u8,
        (count % 256) as u8,
        (bytes / 256 % 256) as u8,
        (bytes % 256) as u8,
        0,
        0,
    ];
    let mut line = [0u8; LINE];
    put_frame(&mut line, 0, &ten);
    line
}

/// The frame of an answer: the entry's number, that of the refusal or 0, the index, the count, and a number of bytes, the last three modulo
/// 65,536.
pub fn report_line(entry: u8, answer: Result<usize, Refusal>, bytes: usize) -> [u8; LINE]
    ensures { result ≡ report_line entry (reply answer) bytes }
{
    match answer {
        Ok(count) => line_of(entry, 0, 0, count, bytes),
        Err(refusal) => line_of(
            entry,
            refusal.number(),
            refusal.index(),
            refusal.ticks(),
            bytes,
        ),
    }
}

/// Prints the frame of an answer on standard output. What is printed there has no promise: the library says nothing of it.
pub fn report(entry: u8, answer: Result<usize, Refusal>, bytes: usize) {
    io::write_all(1, &report_line(entry, answer, bytes));
}
