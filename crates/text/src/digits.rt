// Characters and digits, each found from the other by arithmetic.
ghost use Rattle.std.specs.Prelude.{◌≡◌, ◌+◌, ◌*◌, ◌/◌, ◌%◌, ◌<◌};
ghost use Rattle.text.specs.digits.Digit.{numeral_of, letter_of, digit_of, char_of};

// What stands for no digit.
const NONE: u8 = 255;

fn numeral_digit(c: u8) -> u8
    ensures { result ≡ numeral_of c }
{
    if (48 <= c) & (c <= 57) {
        return c - 48;
    }
    NONE
}

// A small letter is its capital with one bit more, 32.
#[tactic(auto, using(crate::proofs::digits::Digits::digits_made))]
fn letter_digit(c: u8) -> u8
    ensures { result ≡ letter_of c }
{
    let letter = c & 223;
    if (65 <= letter) & (letter <= 70) {
        return letter - 55;
    }
    NONE
}

/// The digit that a character stands for, 0 to 15, or 255. One of the two is 255, which has every bit, so that the other is left.
#[tactic(auto, using(crate::proofs::digits::Digits::digits_made))]
pub fn digit(c: u8) -> u8
    ensures { result ≡ digit_of c }
{
    numeral_digit(c) & letter_digit(c)
}

/// The character of a digit, a capital from ten on.
#[tactic(auto, using(crate::proofs::digits::Digits::digits_made))]
pub fn character(d: u8) -> u8
    requires { d < 16 }
    ensures { result ≡ char_of d }
{
    d + 48 + 7 * ((9 < d) as u8)
}

/// The two characters of a byte as one number, the first one low. Both are made at once, a byte of the number each: six more than a digit
/// is sixteen or more where its character is a letter, and letters begin seven places behind the numerals.
#[tactic(auto, using(crate::proofs::digits::Digits::digits_made))]
pub fn characters(b: u8) -> u16
    ensures { result ≡ char_of (b / 16) + 256 * char_of (b % 16) }
{
    let both = (b / 16) as u16 + (b % 16) as u16 * 256;
    both + 0x3030 + 7 * ((both + 0x0606) / 16 & 0x0101)
}
