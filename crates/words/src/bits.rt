// Words of bits: a condition's bit, care masks and values.
ghost use Rattle.std.specs.Prelude.{◌≡◌, ◌<◌, ◌^◌};
ghost use Rattle.std.specs.Int.Bits.{bit_or};
ghost use Rattle.std.specs.Int.{bit_at};

/// Bit `i` of a word, 0 to 15: the value of condition `i`.
pub fn bit(word: u16, i: u8) -> u16
    requires { i < 16 }
    ensures { result ≡ bit_at word i }
{
    (word >> i) % 2
}

/// A care mask or values with condition `i` besides, 0 to 15.
pub fn with_bit(word: u16, i: u8) -> u16
    requires { i < 16 }
    ensures { result ≡ bit_or word (2 ^ i) }
{
    word | (1 << i)
}
