// Little-endian words of 2, 4 and 8 bytes. What is written over `W: Word` is proved once for all of them.
ghost use Rattle.std.specs.Prelude.{◌≡◌, ℕ, List, ◌+◌, ◌*◌, ◌^◌, ◌≤◌, ◌<◌, length, take, drop};
ghost use Rattle.std.specs.Float.Ieee.{size};
ghost use Rattle.digits.specs.Digits.{le, number};
ghost use Rattle.digits.specs.Lists.{put_at};
ghost use Rattle.bits.specs.Words.{WordLaws, itself, themselves, word_laws};

pub trait Word: Copy {
    // How many bytes a word has; the number that it is, and those of a list of words.
    ghost BYTES: { ℕ };

    ghost as_number: { Self → ℕ };

    ghost as_numbers: { List Self → List ℕ };

    const BYTES: usize;

    // The word of a number that it has room for.
    fn from_number(n: u64) -> Self
        requires { n < 2 ^ (8 * BYTES) }
        ensures { as_number result ≡ n };

    fn number(self) -> u64
        ensures is { result ≡ as_number self }
        ensures fits { result < 2 ^ (8 * BYTES) };

    // The fewest bits that hold the word, none for 0: its bits less its leading zeros.
    fn width(self) -> u8
        ensures is { result ≡ size (as_number self) }
        ensures fits { result ≤ 8 * BYTES };

    // The word that stands from byte `at` on.
    fn read(bytes: &[u8], at: usize) -> Self
        requires { at + BYTES ≤ length bytes.now }
        ensures { as_number result ≡ number (take BYTES (drop at bytes.now)) };

    // The word to the bytes from `at` on.
    fn store(self, out: &mut [u8], at: usize)
        requires { at + BYTES ≤ length out.old }
        ensures { out.new ≡ put_at at (le BYTES (as_number self)) out.old };

    ghost laws: { WordLaws as_number as_numbers };
}

impl Word for u16 {
    ghost BYTES = { 2 };

    ghost as_number = { itself };

    ghost as_numbers = { themselves };

    const BYTES: usize = 2;

    fn from_number(n: u64) -> u16 {
        n as u16
    }

    fn number(self) -> u64 {
        self as u64
    }

    fn width(self) -> u8 {
        (16 - self.leading_zeros()) as u8
    }

    fn read(bytes: &[u8], at: usize) -> u16 {
        (bytes[at] as u16) + 256 * (bytes[at + 1] as u16)
    }

    fn store(self, out: &mut [u8], at: usize) {
        out[at] = (self % 256) as u8;
        out[at + 1] = (self / 256) as u8;
    }

    ghost laws = { word_laws };
}

// Two halves, the low one first. What the three impls differ in is the machine's own operations of each size.
impl Word for u32 {
    ghost BYTES = { 4 };

    ghost as_number = { itself };

    ghost as_numbers = { themselves };

    const BYTES: usize = 4;

    fn from_number(n: u64) -> u32 {
        n as u32
    }

    fn number(self) -> u64 {
        self as u64 // with zeros above it
    }

    fn width(self) -> u8 {
        (32 - self.leading_zeros()) as u8
    }

    fn read(bytes: &[u8], at: usize) -> u32 {
        let low = u16::read(bytes, at);
        let high = u16::read(bytes, at + 2);
        (low as u32) + 65536 * (high as u32)
    }

    fn store(self, out: &mut [u8], at: usize) {
        ((self % 65536) as u16).store(out, at);
        ((self / 65536) as u16).store(out, at + 2);
    }

    ghost laws = { word_laws };
}

// Two halves, the low one first.
impl Word for u64 {
    ghost BYTES = { 8 };

    ghost as_number = { itself };

    ghost as_numbers = { themselves };

    const BYTES: usize = 8;

    fn from_number(n: u64) -> u64 {
        n
    }

    fn number(self) -> u64 {
        self
    }

    fn width(self) -> u8 {
        (64 - self.leading_zeros()) as u8
    }

    fn read(bytes: &[u8], at: usize) -> u64 {
        let low = u32::read(bytes, at);
        let high = u32::read(bytes, at + 4);
        (low as u64) + 4294967296 * (high as u64)
    }

    fn store(self, out: &mut [u8], at: usize) {
        ((self % 4294967296) as u32).store(out, at);
        ((self / 4294967296) as u32).store(out, at + 4);
    }

    ghost laws = { word_laws };
}
