// The bytes of a vector with one pair, looked at value by value, and left early.
ghost use Rattle.std.specs.Prelude.{◌≡◌, ◌≤◌, min, length};
ghost use Rattle.rules.specs.Coded.{format_of, as_pair};
ghost use Rattle.rules.specs.Choose.{size_with};
ghost use Rattle.encode.specs.Vectors.{Short};
ghost use Rattle.encode.specs.Seen.{as_seen, Kept, size_seen};
ghost use Rattle.chooser.specs.Trial.{rest_free};

use decimal::scale::Scale;
use decimal::value::Value;
use decimal::whole::whole;
use encode::scan::Seen;

// How many bytes a vector of n values has at least, of which these were seen: as many as if the rest cost nothing. It is worked out before each
// eighth value only, and 0 before the others: more often would spare few values more.
fn at_least<V: Value>(seen: Seen, n: usize) -> usize
    requires { Kept (format_of V.KIND) (as_seen seen) × (seen.count ≤ n) × Short n }
    ensures { result ≤ size_seen (format_of V.KIND) (rest_free n (as_seen seen)) }
{
    if seen.count % 8 != 0 {
        return 0;
    }
    let all = Seen { count: n, ..seen };
    all.vector_size::<V>()
}

// The bytes of the vector with a pair, where they are fewer than the best so far; where not, any number that is no fewer. So a pair is left
// as soon as it can't be better.
pub fn trial<V: Value>(values: &[V], scale: &Scale<V>, best: usize) -> usize
    requires { Short (length values.now) }
    ensures { min best result ≡ min best (size_with (format_of V.KIND) (V.as_numbers values.now) (as_pair scale.now.pair)) }
{
    let mut seen = Seen::new();
    for value in values {
        if best <= at_least::<V>(seen, values.len()) { // whatever comes
            return best;
        }
        seen = seen.with_next(whole(*value, scale));
    }
    seen.vector_size::<V>()
}
