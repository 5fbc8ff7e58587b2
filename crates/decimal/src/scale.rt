// A pair with its powers of ten. An array that a function indexes is made anew at each call, so a vector's powers are looked up once and
// handed on.
ghost use Rattle.std.specs.Prelude.{◌≡◌, ⊤};
ghost use Rattle.rules.specs.Coded.{format_of, as_pair};
ghost use Rattle.rules.specs.Write.{Allowed};
ghost use Rattle.decimal.specs.Scale.{Scales};

use crate::value::Value;
use rules::Pair;
use std::alloc::AllocError;
use std::marker::PhantomData;

// 10^e and 10^-f for the way to the whole number, 10^f and 10^-e for the way back. `F` is always the kind's float: a parameter, since a type that
// holds an associated one is not copied.
pub struct Scale<V: Value<Float = F>, F: Copy = <V as Value>::Float> {
    pub pair: Pair,
    pub up_e: F,
    pub down_f: F,
    pub up_f: F,
    pub down_e: F,
    pub kind: PhantomData<V>,
    pub ghost powers: { Scales (format_of V.KIND) (as_pair pair) (V.float up_e) (V.float down_f) (V.float up_f) (V.float down_e) },
}

impl<V: Value<Float = F>, F: Copy> Copy for Scale<V, F> {}

impl<V: Value<Float = F>, F: Copy> Clone for Scale<V, F> {
    ghost is_clone = { λ x y. y ≡ x };

    ghost is_infallible = { λ _. ⊤ };

    fn clone(&self) -> Result<Scale<V, F>, AllocError> {
        Ok(*self)
    }
}

pub fn scale_of<V: Value>(pair: Pair) -> Scale<V>
    requires { Allowed (format_of V.KIND) (as_pair pair) }
    ensures { result.pair ≡ pair }
{
    let e = pair.exponent.0;
    let f = pair.factor.0;
    Scale {
        pair,
        up_e: V::power(e),
        down_f: V::neg_power(f),
        up_f: V::power(f),
        down_e: V::neg_power(e),
        kind: PhantomData,
    }
}
