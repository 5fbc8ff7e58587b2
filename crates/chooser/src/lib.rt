// Choosing a vector's pair: the public call.
#![tactic(auto)]

mod trial; // trial.rt: the bytes of a vector with one pair, as far as they matter
mod search; // search.rt: the first of the pairs with the fewest

ghost use Rattle.std.specs.Prelude.{◌≡◌, length};
ghost use Rattle.rules.specs.Coded.{format_of};
ghost use Rattle.rules.specs.Calls.{Chosen};
ghost use Rattle.chooser.specs.Forms.{answered_with};

use crate::search::search;
use checks::check::{Refusal, answer_of};
use checks::sizes::{MAX_S, size_of};
use decimal::value::Value;
use rules::{Choice, Exponent, Factor, Pair, Row};

// The answer, with the count of values as place, and the pair, which is 0, 0 in a refusal.
fn choice_of(n: usize, called: Result<Pair, Refusal>) -> Choice
    ensures { result ≡ answered_with n called }
{
    let pair = called.unwrap_or(Pair {
        exponent: Exponent(0),
        factor: Factor(0),
    });
    Choice {
        answer: answer_of(called.map(|_| n)),
        exponent: pair.exponent.0,
        factor: pair.factor.0,
    }
}

// The pair, or row 31.
fn try_choose<V: Value>(values: &[V]) -> Result<Pair, Refusal>
    ensures { Chosen (format_of V.KIND) (V.as_numbers values.now) (answered_with (length values.now) result) }
{
    let n = values.len();
    if n < 1 || size_of(MAX_S) < n { // more than a vector holds
        return Err(Refusal {
            row: Row::NotOneVector,
            vector: 0,
            place: 0,
        });
    }
    Ok(search(values))
}

// Of all pairs, exponent rising, then factor rising, the first of those with the fewest bytes for the vector of these values.
pub fn choose<V: Value>(values: &[V]) -> Choice
    ensures { Chosen (format_of V.KIND) (V.as_numbers values.now) result }
{
    choice_of(values.len(), try_choose(values))
}
