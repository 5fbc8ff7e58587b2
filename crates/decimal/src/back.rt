// A whole number back to the bits of a value: the nearest float, times 10^f, then times 10^-e. Whole numbers come as words.
ghost use Rattle.std.specs.Prelude.{◌≡◌, map};
ghost use Rattle.std.proofs.Common.{to_z};
ghost use Rattle.rules.specs.Kind.{word};
ghost use Rattle.rules.specs.Coded.{format_of, as_pair};
ghost use Rattle.rules.specs.Decimal.{back};
ghost use Rattle.decimal.specs.Turn.{turned};

use crate::scale::Scale;
use crate::value::Value;

// The bits of the value that the word, read as signed, comes back as. They are never a NaN's: the powers are finite and not zero.
pub fn back<V: Value>(whole: V, scale: &Scale<V>) -> V
    ensures { V.as_number result ≡ back (format_of V.KIND) (as_pair scale.now.pair) (to_z (word (format_of V.KIND)) (V.as_number whole)) }
{
    V::bits_of(V::two_products(whole.nearest(), scale.up_f, scale.down_e))
}

// The reading rule at one field, whose sum with the frame is known to stay in the signed range (row 17): so the words may be added modulo
// 2^W.
pub fn value_of<V: Value>(frame: V, field: V, scale: &Scale<V>) -> V
    ensures { V.as_number result ≡ turned (format_of V.KIND) (as_pair scale.now.pair) (V.as_number frame) (V.as_number field) }
{
    back(frame.wrapping_sum(field), scale)
}

// The same of each field of a lent slice, in place.
pub fn turn<V: Value>(out: &mut [V], frame: V, scale: &Scale<V>)
    ensures { V.as_numbers out.new ≡ map (turned (format_of V.KIND) (as_pair scale.now.pair) (V.as_number frame)) (V.as_numbers out.old) }
{
    for place in out.iter_mut() {
        *place = value_of(frame, *place, scale);
    }
}
