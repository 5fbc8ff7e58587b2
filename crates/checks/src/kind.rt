// The numbers of the two float kinds, for code that needs no more of a kind than these. Every number has its bound beside it, so that no
// caller goes by cases.
ghost use Rattle.std.specs.Prelude.{◌≡◌, ◌^◌, ◌≤◌, ◌<◌};
ghost use mir.Val.{hbits};
ghost use Rattle.rules.specs.Kind.{word, word_bytes, word_bits, max_exponent, meta_bytes};
ghost use Rattle.rules.specs.Coded.{format_of};

use rules::Kind;

// How many bytes a value has.
pub fn value_bytes(kind: Kind) -> usize
    ensures { (result ≡ word_bytes (format_of kind)) × (result ≤ 8) }
{
    match kind {
        Kind::Single => 4,
        Kind::Double => 8,
    }
}

// W.
pub fn largest_width(kind: Kind) -> usize
    ensures { (result ≡ word_bits (format_of kind)) × (result ≤ 64) }
{
    match kind {
        Kind::Single => 32,
        Kind::Double => 64,
    }
}

// 2^(W - 1): a signed word goes from minus this to one below it.
pub fn half_range(kind: Kind) -> u64
    ensures { (result ≡ 2 ^ hbits (word (format_of kind))) × (0 < result) × (result ≤ 2 ^ 63) }
{
    match kind {
        Kind::Single => 0x8000_0000,
        Kind::Double => 0x8000_0000_0000_0000,
    }
}

// E.
pub fn largest_exponent(kind: Kind) -> u8
    ensures { (result ≡ max_exponent (format_of kind)) × (result ≤ 18) }
{
    match kind {
        Kind::Single => 10,
        Kind::Double => 18,
    }
}

// Metadata per vector: the frame is a word, and the rest has 5 bytes.
pub fn meta_bytes(kind: Kind) -> usize
    ensures { (result ≡ meta_bytes (format_of kind)) × (result ≤ 13) }
{
    let word = value_bytes(kind);
    5 + word
}
