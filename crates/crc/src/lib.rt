//! CRC-32 (ISO-HDLC, as in zlib, PNG and Ethernet): a sum over bytes that changes where one of them does.
//! Bit by bit, as it is defined; the compiler makes of it a loop over 256 sums, 1,024 bytes of constants in each archive.
#![tactic(auto)]

ghost use Rattle.std.specs.Prelude.{◌≡◌};
ghost use Rattle.crc.specs.Crc.{after_bit, after_byte, crc};
ghost use Rattle.crc.specs.Laws.{GoesOn, TellsChange};

/// The powers from 0 to 31 of the polynomial, the lowest in the highest bit.
pub const POLYNOMIAL: u32 = 0xEDB8_8320;

/// Of a byte.
pub const BITS: usize = 8;

// The register after the bit that falls out of it.
fn after_bit(register: u32) -> u32
    ensures { result ≡ after_bit register }
{
    let half = register / 2;
    if register % 2 == 1 {
        half ^ POLYNOMIAL
    } else {
        half
    }
}

// The register after one more byte.
#[tactic(auto, unfolding(crate::specs::Crc::after_bits))]
fn after_byte(register: u32, byte: u8) -> u32
    ensures { result ≡ after_byte register byte }
{
    let mut next = register ^ (byte as u32);
    for _ in 0..BITS {
        next = after_bit(next);
    }
    next
}

/// The sum of bytes behind those whose sum is `sum`; 0 is the sum of none, so that what comes in parts has the sum of the whole.
#[tactic(auto, unfolding(crate::specs::Crc::crc))]
pub fn sum(sum: u32, bytes: &[u8]) -> u32
    ensures { result ≡ crc sum bytes.now }
{
    let mut register = !sum;
    for byte in bytes {
        register = after_byte(register, *byte);
    }
    !register
}

/// Part by part comes to the sum of the whole; and of bytes that differ in a single one the sums differ.
#[tactic(auto, using(crate::proofs::Registers::a_changed_byte_changes_the_sum))]
pub fn a_changed_byte_changes_the_sum()
    ensures parts { GoesOn }
    ensures change { TellsChange }
{}
