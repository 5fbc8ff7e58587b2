// The pairs that the library chooses, one for each vector of a column, and what the tool says of them.
use checks::sizes::{MAX_S, size_of};
use chooser::choose;
use decimal::value::Value;
use sentences::Output;

// Two bytes a vector of 2^s values. Where the library refuses s or the count, there are none, or they are not looked at.
pub fn choose_pairs<V: Value>(values: &[V], s: u8, pairs: &mut [u8]) {
    let size = size_of(usize::from(s).min(MAX_S));
    let (pairs, _) = pairs.as_chunks_mut::<2>();
    for (pair, part) in pairs.iter_mut().zip(values.chunks(size)) {
        let choice = choose(part);
        *pair = [choice.exponent, choice.factor];
    }
}

// Every exponent and every factor is at most this.
const MOST: u8 = 18;

// A row for each pair that was chosen, exponent rising, then factor rising: in how many vectors it was.
pub fn show_chosen(to: &mut Output, pairs: &[u8]) {
    if !pairs.is_empty() {
        to.show("vectors  exponent  factor\n");
    }
    let (pairs, _) = pairs.as_chunks::<2>();
    for exponent in 0..=MOST {
        for factor in 0..=MOST {
            let many = pairs
                .iter()
                .filter(|pair| **pair == [exponent, factor])
                .count();
            if 0 < many {
                to.show(format_args!("{many:>7}{exponent:>10}{factor:>8}\n"));
            }
        }
    }
}
