// The bits from a bit on, by whole words: the 8 bytes from the bit's own byte on, less the bits before it. They hold a field of up to 57
// bits; a longer one may reach into a ninth byte.
ghost use Rattle.std.specs.Prelude.{◌≡◌, ◌+◌, ◌-◌, ◌/◌, ◌%◌, ◌^◌, ◌≤◌, length, take, drop};
ghost use Rattle.digits.specs.Digits.{number};

use crate::word::Word;

// `width` ones: an `&` with them keeps a field of that width.
pub fn mask_of(width: usize) -> u64
    requires { width ≤ 64 }
    ensures { result ≡ 2 ^ width - 1 }
{
    if width < 64 {
        (1 << width) - 1
    } else {
        0xFFFF_FFFF_FFFF_FFFF
    }
}

// The bits from bit `start` on, where 8 bytes are there: 57 of them at least.
pub fn eight_from(bytes: &[u8], start: usize) -> u64
    requires { start / 8 + 8 ≤ length bytes.now }
    ensures { result % 2 ^ 57 ≡ number bytes.now / 2 ^ start % 2 ^ 57 }
{
    u64::read(bytes, start / 8) >> (start % 8)
}

// The 64 bits from bit `start` on, where 9 bytes are there: the ninth goes above the word, by two shifts, since one by 64 is none.
pub fn nine_from(bytes: &[u8], start: usize) -> u64
    requires { start / 8 + 9 ≤ length bytes.now }
    ensures { result ≡ number bytes.now / 2 ^ start % 2 ^ 64 }
{
    let first = start / 8;
    let skip = start % 8;
    let word = u64::read(bytes, first);
    let ninth = bytes[first + 8] as u64;
    (word >> skip) | ((2 * ninth) << (63 - skip))
}

// The 8 bytes from byte `at` on, or those that are left, as if zeros followed them.
pub fn word_at(bytes: &[u8], at: usize) -> u64
    requires { at ≤ length bytes.now }
    ensures { result ≡ number (take 8 (drop at bytes.now)) }
{
    if 8 <= bytes.len() - at {
        return u64::read(bytes, at);
    }
    bytes[at..]
        .iter()
        .rev()
        .fold(0, |word, byte| word * 256 + (*byte as u64))
}
