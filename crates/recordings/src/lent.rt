// A column with exceptions of every sort, written into outputs of a byte more than its page has, of exactly its length, of a byte less, and of
// none. Each line shows the answer and then all bytes, those behind the lent ones too, so that what was left as it came is seen.
ghost use Rattle.std.specs.Prelude.{◌≤◌, ◌<◌};

use crate::show::{Bytes, Recorder, repeated};
use decimal::value::Value;
use writer::{measure, write};

// Exponent 1 for the first vector, 0 for the second.
const PAIRS: [u8; 4] = [1, 0, 0, 0];

// 32-bit floats: the page has 8 + 2 * 4 + (9 + 4 + 6 * 6) + (9 + 0 + 1 * 6) = 80 bytes
const SINGLE: [u32; 11] = [
    0x3FC00000, // 1.5
    0x7FC12345, // a NaN
    0x7F800000, // infinity
    0x80000000, // -0.0
    0x7F7FFFFF, // the largest finite value: infinite when scaled
    0x4F000000, // 2^31: above L when scaled
    0x3EAAAAAB, // 0.33333334: comes back as 0.3
    0x40200000, // 2.5
    0xFF800000, // -infinity
    0x40E00000, // 7.0
    0x40E00000, // 7.0
];

// 64-bit floats: the page has 8 + 2 * 4 + (13 + 4 + 6 * 10) + (13 + 0 + 1 * 10) = 116 bytes
const DOUBLE: [u64; 11] = [
    0x3FF8000000000000, // 1.5
    0x7FF8000000012345, // a NaN
    0x7FF0000000000000, // infinity
    0x8000000000000000, // -0.0
    0x7FEFFFFFFFFFFFFF, // the largest finite value: infinite when scaled
    0x43E0000000000000, // 2^63: above L when scaled
    0x3FD5555555555555, // 0.3333333333333333: comes back as 0.30000000000000004
    0x4004000000000000, // 2.5
    0xFFF0000000000000, // -infinity
    0x401C000000000000, // 7.0
    0x401C000000000000, // 7.0
];

// The column, written into the first `room` bytes of an output of `size`.
fn written<V: Value>(to: &mut Recorder, values: &[V], size: usize, room: usize)
    requires { (room ≤ size) × (size ≤ 117) }
{
    let mut out: [u8; 117] = repeated(0xEE);
    let out = &mut out[..size];
    let wrote = write(values, 3, &PAIRS, &mut out[..room]);
    let bits = 8 * V::BYTES;
    to.line(
        format_args!("{bits} exceptions, room {room}:"),
        wrote,
        Bytes(out),
    );
}

// The column, whose page has `length` bytes.
fn lent<V: Value>(to: &mut Recorder, values: &[V], length: usize)
    requires { (0 < length) × (length ≤ 116) }
{
    let bits = 8 * V::BYTES;
    let measured = measure(values, 3, &PAIRS);
    to.line(format_args!("{bits} exceptions measure"), measured, "");
    let size = length + 1;
    written(to, values, size, length + 1);
    written(to, values, size, length);
    written(to, values, size, length - 1);
    written(to, values, size, 0);
}

pub fn run(to: &mut Recorder) {
    lent(to, &SINGLE, 80);
    lent(to, &DOUBLE, 116);
}
