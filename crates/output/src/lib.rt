//! What the two programs print, as functions of the bytes that they read: the frame of a refusal and the line of a code (`printing`), these
//! lines put into a buffer (`output_lines`), and each program between its input and its output (`translate_output`, `run_output`).
#![tactic(auto)]

ghost use Rattle.output.specs.Readings.{TranslateFront, RunFront, TranslateCapitals, RunCapitals};
ghost use Rattle.output.specs.Readings.{RefusalCapitals, CodeCapitals};

mod output_lines;
pub mod printing;
pub mod run_output;
pub mod translate_output;

/// What the programs print goes by no more than one character past the longest text, and by no letter's size.
pub fn programs_print_by_what_is_read()
    ensures translate_front { TranslateFront }
    ensures run_front { RunFront }
    ensures translate_capitals { TranslateCapitals }
    ensures run_capitals { RunCapitals }
{}

/// The lines that are printed beside an image are in capitals, as the image is.
pub fn lines_are_in_capitals()
    ensures refusal { RefusalCapitals }
    ensures code { CodeCapitals }
{}
