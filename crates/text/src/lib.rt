//! Frames as text, and the refusals of every entry point.
//! `digits` turns characters into digits and back, `frames` has sizes, refusals and how a frame is written, `frame_reading` reads one
//! frame, and `reading` a whole text in one pass, with refusals 1 to 3.
#![tactic(auto)]

ghost use Rattle.text.specs.digits.EachDigit.{EachDigit};
ghost use Rattle.text.specs.frames.Alike.{CapitalsAlike};

pub mod digits;
mod frame_reading;
pub mod frames;
pub mod reading;

/// Each of the 256 characters has the digit that is written out, and every text is read as it is in capitals.
pub fn letters_of_both_sizes_are_read_alike()
    ensures digits { EachDigit }
    ensures capitals { CapitalsAlike }
{}
