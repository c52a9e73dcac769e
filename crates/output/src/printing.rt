// What the programs print: the frame that tells a refusal, and the line of a tick's code.
ghost use Rattle.std.specs.Prelude.{◌≡◌};
ghost use Rattle.output.specs.Lines.{code_line, refusal_line};

use text::digits::character;
use text::frames::put_frame;
use text::frames::sizes::{LINE, LINE_FEED};

/// The frame that tells a refusal: FF, its number and its index modulo 65,536.
pub fn refusal_line(number: u8, index: usize) -> [u8; LINE]
    ensures { result ≡ refusal_line number index }
{
    let mut line = [0u8; LINE];
    let bytes = [
        255,
        number,
        (index / 256 % 256) as u8,
        (index % 256) as u8,
        0,
        0,
        0,
        0,
        0,
        0,
    ];
    put_frame(&mut line, 0, &bytes);
    line
}

/// The line of a tick's code: two digits and a line feed.
pub fn code_line(code: u8) -> [u8; 3]
    ensures { result ≡ code_line code }
{
    let high = character(code / 16);
    let low = character(code % 16);
    [high, low, LINE_FEED]
}
