// One frame of a text, read: its characters and its sum looked at, and its ten bytes stored in a lent buffer.
ghost use Rattle.std.specs.Prelude.{◌≡◌, map, ◌+◌, ◌≤◌, ◌<◌, length};
ghost use Rattle.words.specs.lists.Numbers.{range};
ghost use Rattle.text.specs.inner.FrameReads.{DigitsRead, place_of, value_of, FrameAsked, FrameRead};

use crate::digits::digit;
use crate::frames::sizes::*;

// The digits of a frame's characters 0 to 15, then of 6 to 21, and whether one of these is no digit.
#[derive(Drop)]
struct FrameDigits {
    digits: [u8; 32],
    form: bool,
}

/// What 2 and 3 find at a frame: a character that the form excludes, a sum that is not 0 modulo 256.
#[derive(Drop)]
pub struct Faults {
    pub form: bool,
    pub sum: bool,
}

// A frame's characters sixteen at a time, first 0 to 15, then 6 to 21: the compiler works on sixteen at once.
fn read_digits(text: &[u8], from: usize) -> FrameDigits
    requires { from + DIGITS ≤ length text.now }
    ensures { DigitsRead text.now from result }
{
    let mut digits = [0u8; 32];
    let mut form = false;
    for i in 0..16 {
        let front = digit(text[from + i]);
        let back = digit(text[from + (6 + i)]);
        digits[i] = front;
        digits[16 + i] = back;
        form = form | (16 <= front) | (16 <= back);
    }
    FrameDigits { digits, form }
}

// Where the digits of byte k stand.
fn place_of(k: usize) -> usize
    requires { k < BYTES }
    ensures place { result ≡ place_of k }
    ensures both_digits { result + 1 < 32 }
{
    if k < 8 {
        return 2 * k;
    }
    2 * k + 10
}

// The eleven bytes of these digits.
fn values_of(digits: &[u8; 32]) -> [u8; BYTES]
    ensures { result ≡ map (value_of digits.now) (range 0 BYTES) }
{
    let mut values = [0u8; BYTES];
    for k in 0..BYTES {
        let i = place_of(k);
        let high = digits[i] as u16;
        let low = digits[i + 1] as u16;
        values[k] = ((16 * high + low) % 256) as u8;
    }
    values
}

/// Reads frame f: its eleven bytes and its line feed are looked at, and the first ten stored at its place among the frames.
pub fn read_frame(text: &[u8], f: usize, out: &mut [u8]) -> Faults
    requires { FrameAsked text.now f out.old }
    ensures { FrameRead text.now f out.old result out.new }
{
    let from = LINE * f;
    let to = FRAME * f;
    let read = read_digits(text, from);
    let digits = read.digits;
    let form = read.form;
    let values = values_of(&digits);
    let mut total: u32 = 0;
    for k in 0..FRAME {
        let value = values[k];
        total += value as u32;
        out[to + k] = value;
    }
    total += values[10] as u32;
    let feed = text[from + DIGITS];
    Faults {
        form: form | (feed != LINE_FEED),
        sum: total % 256 != 0,
    }
}
