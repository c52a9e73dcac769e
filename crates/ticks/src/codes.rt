// Tick codes: which code a tick has, and what a code stands for.
ghost use Rattle.std.specs.Prelude.{◌≡◌, ◌≤◌};
ghost use Rattle.text.specs.declared.frames.sizes.TheConstants.{SCHEMES};
ghost use Rattle.image.specs.Layout.{tick_kind};
ghost use Rattle.ticks.specs.codes.Codes.{code_of, meaning_of};

use image::layout::*;
use text::frames::codes::*;

/// What is told of a drop in the place of a tick kind.
pub const DROP: u8 = 5;

/// What is told in the place of a tick kind where no tick has the code.
pub const UNKNOWN: u8 = 255;

/// What a code stands for, a call with the number called; Drop is a call that dropped all open schemes, Unknown a code that no tick has.
#[derive(Drop)]
pub enum Meaning {
    Plain,
    OperationCall(u8),
    FunctionCall(u8),
    Return,
    Home,
    Drop,
    Unknown,
}

/// The code of a tick, by its kind and the number that it calls.
pub fn code_of(kind: u8, called: u8) -> u8
    requires { called ≤ SCHEMES }
    ensures { result ≡ code_of (tick_kind kind) called }
{
    match kind {
        PLAIN => PLAIN_CODE,
        OPERATION_CALL => OPERATION_CALL_CODE + called,
        FUNCTION_CALL => FUNCTION_CALL_CODE + called,
        RETURN => RETURN_CODE,
        _ => HOME_CODE,
    }
}

/// What a code stands for: a call's number is 2 to 16, and a code that is no tick's stands for Unknown.
pub fn meaning_of(code: u8) -> Meaning
    ensures { result ≡ meaning_of code }
{
    match code {
        PLAIN_CODE => Meaning::Plain,
        RETURN_CODE => Meaning::Return,
        HOME_CODE => Meaning::Home,
        0x12..=0x20 => Meaning::OperationCall(code - OPERATION_CALL_CODE),
        0x42..=0x50 => Meaning::FunctionCall(code - FUNCTION_CALL_CODE),
        DROP_CODE => Meaning::Drop,
        _ => Meaning::Unknown,
    }
}
