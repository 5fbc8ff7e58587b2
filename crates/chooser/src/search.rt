// All pairs, one after the other: the first of those with the fewest bytes.
ghost use Rattle.std.specs.Prelude.{◌≡◌, cond, ◌≤◌, ◌<◌, length, ltb};
ghost use Rattle.rules.specs.Coded.{format_of, as_pair};
ghost use Rattle.rules.specs.Choose.{chosen};
ghost use Rattle.encode.specs.Vectors.{Short};

use crate::trial::trial;
use checks::kind::largest_exponent;
use decimal::scale::scale_of;
use decimal::value::Value;
use encode::scan::Seen;
use rules::{Exponent, Factor, Pair};

// A pair, and the bytes that the vector has with it.
#[derive(Clone, Copy)]
pub struct Best {
    pub pair: Pair,
    pub size: usize,
}

// The best so far, unless the other has fewer bytes.
fn better(best: Best, other: Best) -> Best
    ensures { result ≡ cond (ltb other.size best.size) other best }
{
    if other.size < best.size { other } else { best }
}

// The first pair is looked at in full, and each of the others only while it may have fewer bytes than the best so far.
pub fn search<V: Value>(values: &[V]) -> Pair
    requires { Short (length values.now) }
    ensures { as_pair result ≡ chosen (format_of V.KIND) (V.as_numbers values.now) }
{
    let first = Pair {
        exponent: Exponent(0),
        factor: Factor(0),
    };
    let seen = Seen::of(values, &scale_of(first));
    let mut best = Best {
        pair: first,
        size: seen.vector_size::<V>(),
    };
    // not `..=`: such a loop has two ways out, and all that it shows would be said for each
    for e in 1..largest_exponent(V::KIND) + 1 {
        for f in 0..e + 1 {
            let pair = Pair {
                exponent: Exponent(e),
                factor: Factor(f),
            };
            let size = trial(values, &scale_of(pair), best.size);
            best = better(best, Best { pair, size });
        }
    }
    best.pair
}
