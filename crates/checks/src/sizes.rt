// The limits of a page, and how many values, vectors and bytes there are.
ghost use Rattle.std.specs.Prelude.{◌≡◌, ◌+◌, ◌-◌, ◌*◌, ◌/◌, ◌^◌, ◌≤◌, ◌<◌};
ghost use Rattle.digits.specs.Digits.{packed_size};
ghost use Rattle.rules.specs.Kind.{max_s, max_values, word_bytes, meta_bytes};
ghost use Rattle.rules.specs.Coded.{format_of};

use crate::kind::{meta_bytes, value_bytes};
use rules::Kind;

// Rows 5 and 6 keep s and the count of values to these.
pub const MIN_S: usize = 3;

pub const MAX_S: usize = 10;

pub const MAX_VALUES: usize = 16384;

// How many values a full vector holds.
pub fn size_of(s: usize) -> usize
    requires { s ≤ max_s }
    ensures { (result ≡ 2 ^ s) × (0 < result) × (result ≤ 2 ^ max_s) }
{
    1 << s
}

// How many vectors n values make.
pub fn vectors_of(n: usize, size: usize) -> usize
    requires { (n ≤ max_values) × (0 < size) × (size ≤ 2 ^ max_s) }
    ensures { (result ≡ (n + (size - 1)) / size) × (result ≤ n) }
{
    (n + (size - 1)) / size
}

// How many bytes n fields of this width take.
pub fn packed_size(n: usize, width: usize) -> usize
    requires { (n ≤ 2 ^ max_s) × (width < 256) }
    ensures { (result ≡ packed_size n width) × (result ≤ 32 * 2 ^ max_s) }
{
    (n * width + 7) / 8
}

// How many bytes a vector of n values has: the rules' `vector_size`, of any metadata with this width and count of exceptions.
pub fn vector_size(kind: Kind, n: usize, width: usize, listed: usize) -> usize
    requires { (n ≤ 2 ^ max_s) × (width < 256) × (listed < 256 ^ 2) }
    ensures { result ≡ meta_bytes (format_of kind) + (packed_size n width + listed * (2 + word_bytes (format_of kind))) }
{
    let packed = packed_size(n, width);
    let word = value_bytes(kind);
    meta_bytes(kind) + (packed + listed * (2 + word))
}
