// Choosing the pair of a vector: the starred recordings' values (starred.rt), ties, exceptions only, and the edges of a vector's count.
use crate::show::{Recorder, Small, repeated};
use chooser::choose;
use decimal::value::Value;
use std::fmt::Display;

// The pair that is chosen for the values.
pub fn chosen<V: Value, N: Display + Drop>(to: &mut Recorder, name: N, values: &[V]) {
    let choice = choose(values);
    let exponent = choice.exponent;
    let factor = choice.factor;
    to.line(
        format_args!("{name} choose"),
        choice.answer,
        format_args!(", pair {exponent} {factor}"),
    );
}

// No values, as many as a vector holds, and one more.
fn counts<V: Small>(to: &mut Recorder) {
    let bits = 8 * V::BYTES;
    let zeros: [V; 1025] = repeated(V::from_number(0));
    for values in [&zeros[..0], &zeros[..1024], &zeros[..]] {
        let count = values.len();
        chosen(to, format_args!("{bits} values {count}"), values);
    }
}

// Values under their name.
type Vector<V> = (&'static str, &'static [V]);

const SINGLE: [Vector<u32>; 3] = [
    // 0.4142, 931.01: the first of many pairs, where factors before exponents would find 7, 0
    ("32 order", &[0x3ED41206, 0x4468C0A4]),
    // 1.0, 3.0, 95.55: one exception less, where 0, 0 would do if positions cost nothing
    ("32 positions", &[0x3F800000, 0x40400000, 0x42BF199A]),
    // a NaN, -0.0, infinity: the same bytes with every pair
    ("32 exceptions", &[0x7FC12345, 0x80000000, 0x7F800000]),
];

const DOUBLE: [Vector<u64>; 3] = [
    // 0.7: no exponent below 6 brings it back
    ("64 one", &[0x3FE6666666666666]),
    // 7.0, 7.0
    ("64 tie", &[0x401C000000000000, 0x401C000000000000]),
    // a NaN, -0.0, infinity
    (
        "64 exceptions",
        &[0x7FF8000000012345, 0x8000000000000000, 0x7FF0000000000000],
    ),
];

fn edges<V: Small>(to: &mut Recorder, vectors: &[Vector<V>]) {
    for (name, values) in vectors {
        chosen(to, *name, values);
    }
    counts::<V>(to);
}

pub fn run(to: &mut Recorder) {
    edges(to, &SINGLE);
    edges(to, &DOUBLE);
}
