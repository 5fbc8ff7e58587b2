// The lists of exceptions: their positions, then their bit patterns, which are copied as words and never pass through a float.
ghost use Rattle.std.specs.Prelude.{◌≡◌, ◌++◌, ◌+◌, ◌*◌, ◌≤◌, length};
ghost use Rattle.digits.specs.Digits.{les};
ghost use Rattle.digits.specs.Lists.{put_at};
ghost use Rattle.rules.specs.Coded.{format_of, as_pair};
ghost use Rattle.rules.specs.Vector.{tries, places, picks};
ghost use Rattle.encode.specs.Vectors.{Short, entry};

use bits::word::Word;
use decimal::scale::Scale;
use decimal::value::Value;
use decimal::whole::whole;

// A position or a value's bits at `at`, where the value is listed: how far the list then reaches.
fn put_entry<W: Word>(out: &mut [u8], at: usize, word: W, listed: bool) -> usize
    requires { at + length (les W.BYTES (entry listed (W.as_number word))) ≤ length out.old }
    ensures reach { result ≡ at + length (les W.BYTES (entry listed (W.as_number word))) }
    ensures put { out.new ≡ put_at at (les W.BYTES (entry listed (W.as_number word))) out.old }
{
    if listed {
        word.store(out, at);
        return at + W::BYTES;
    }
    at
}

// Each list into a part that it fills, by one try of each value.
fn put_lists<V: Value>(values: &[V], scale: &Scale<V>, positions: &mut [u8], patterns: &mut [u8])
    requires short { Short (length values.now) }
    requires room { length positions.old ≡ length (les 2 (places 0 (tries (format_of V.KIND) (as_pair scale.now.pair) (V.as_numbers values.now)))) }
    requires patterns_room { length patterns.old ≡ length (les V.BYTES (picks (tries (format_of V.KIND) (as_pair scale.now.pair) (V.as_numbers values.now)) (V.as_numbers values.now))) }
    ensures positions { positions.new ≡ les 2 (places 0 (tries (format_of V.KIND) (as_pair scale.now.pair) (V.as_numbers values.now))) }
    ensures patterns { patterns.new ≡ les V.BYTES (picks (tries (format_of V.KIND) (as_pair scale.now.pair) (V.as_numbers values.now)) (V.as_numbers values.now)) }
{
    let mut at: usize = 0;
    let mut to: usize = 0;
    for (position, value) in values.iter().enumerate() {
        let listed = whole(*value, scale).is_none();
        at = put_entry(positions, at, position as u16, listed);
        to = put_entry(patterns, to, *value, listed);
    }
}

// Both lists, into a part that they fill. Where nothing is listed, no value is tried again.
pub fn put_exceptions<V: Value>(values: &[V], scale: &Scale<V>, listed: usize, out: &mut [u8])
    requires short { Short (length values.now) }
    requires counted { listed ≡ length (places 0 (tries (format_of V.KIND) (as_pair scale.now.pair) (V.as_numbers values.now))) }
    requires room { length out.old ≡ listed * (2 + V.BYTES) }
    ensures { out.new ≡ les 2 (places 0 (tries (format_of V.KIND) (as_pair scale.now.pair) (V.as_numbers values.now))) ++ les V.BYTES (picks (tries (format_of V.KIND) (as_pair scale.now.pair) (V.as_numbers values.now)) (V.as_numbers values.now)) }
{
    if listed == 0 {
        return;
    }
    let (positions, patterns) = out.split_at_mut(listed * 2);
    put_lists(values, scale, positions, patterns);
}
