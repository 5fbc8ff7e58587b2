// The bits of a value to its whole number, or "exception".
ghost use Rattle.std.specs.Prelude.{◌≡◌, false, from_bits, to_bits};
ghost use Rattle.std.specs.Float.Ieee.{nan_bits};
ghost use Rattle.rules.specs.Coded.{format_of, as_pair};
ghost use Rattle.rules.specs.Decimal.{scaled, tried};
ghost use Rattle.decimal.specs.Turn.{as_try};

use crate::back::back;
use crate::scale::Scale;
use crate::value::Value;

// The bits of the scaled value. No NaN goes in, so none comes out.
fn scaled<V: Value>(value: V, scale: &Scale<V>) -> V
    requires { nan_bits (format_of V.KIND) (V.as_number value) ≡ false }
    ensures { V.as_number result ≡ to_bits (format_of V.KIND) (scaled (format_of V.KIND) (as_pair scale.now.pair) (from_bits (format_of V.KIND) (V.as_number value))) }
{
    V::bits_of(V::two_products(value.float(), scale.up_e, scale.down_f))
}

// The whole number, or none where the value is an exception: the first test is for a NaN or an infinity, the second for a scaled value
// beyond L, the third for a rounded one: of a scaled value near L it may be 2^63 or 2^31. The last compares bits, and so it finds negative
// zero too, which comes back as zero; as floats the two are equal.
pub fn whole<V: Value>(value: V, scale: &Scale<V>) -> Option<i64>
    ensures { as_try result ≡ tried (format_of V.KIND) (as_pair scale.now.pair) (V.as_number value) }
{
    if !value.is_finite() {
        return None;
    }
    let bits = scaled(value, scale);
    if !bits.is_within_limit() {
        return None;
    }
    let rounded = bits.rounded();
    if !rounded.is_within_limit() {
        return None;
    }
    let number = rounded.truncated();
    if back(V::from_signed(number), scale).number() != value.number() {
        return None;
    }
    Some(number)
}
