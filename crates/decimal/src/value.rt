// Values as bit patterns, of 32 bits and of 64, and what their floats do. What is written over `V: Value` is proved once for both kinds.
ghost use Rattle.std.specs.Prelude.{◌≡◌, refl, ℕ, ◌+◌, ◌≤◌, ◌<◌, ◌*◌, ◌/◌, ◌%◌, ◌^◌, ◌↔◌, true, false, Float, to_bits, from_bits};
ghost use Rattle.std.specs.Float.Ieee.{mul, of_int, nan_bits, is_nan, top, ones, hid};
ghost use Rattle.std.proofs.Common.{to_z, of_z, SFits};
ghost use Rattle.rules.specs.declared.Kind.{Kind};
ghost use Rattle.rules.specs.declared.Kind.TheVariants.{Single, Double};
ghost use Rattle.rules.specs.Kind.{word, word_bits, word_bytes, max_exponent};
ghost use Rattle.rules.specs.Coded.{format_of};
ghost use Rattle.decimal.specs.Fields.{cap};
ghost use Rattle.rules.specs.Decimal.{power, neg_power, rounded, truncated};

use bits::word::Word;
use rules::Kind;

pub trait Value: Word {
    type Float: Copy;

    ghost KIND: { Kind };

    ghost float: { Self.Float → Float };

    const KIND: Kind;

    // 10^k, and the float nearest to 10^-k.
    fn power(k: u8) -> Self::Float
        requires { k ≤ max_exponent (format_of KIND) }
        ensures { float result ≡ power (format_of KIND) k };

    fn neg_power(k: u8) -> Self::Float
        requires { k ≤ max_exponent (format_of KIND) }
        ensures { float result ≡ neg_power (format_of KIND) k };

    // The value as a float, which is a number, and the bits of a float that is one.
    fn float(self) -> Self::Float
        requires { nan_bits (format_of KIND) (Self.as_number self) ≡ false }
        ensures { float result ≡ from_bits (format_of KIND) (Self.as_number self) };

    fn bits_of(x: Self::Float) -> Self
        requires { is_nan (float x) ≡ false }
        ensures { Self.as_number result ≡ to_bits (format_of KIND) (float x) };

    // A value times a power, then times a negative power: two multiplications, each of which rounds the exact product once to nearest, ties
    // to even. One multiplication by the product of the powers would round elsewhere.
    fn two_products(x: Self::Float, up: Self::Float, down: Self::Float) -> Self::Float
        ensures { float result ≡ mul (format_of KIND) (mul (format_of KIND) (float x) (float up)) (float down) };

    // The float nearest to a word read as signed.
    fn nearest(self) -> Self::Float
        ensures { float result ≡ of_int (format_of KIND) (to_z (word (format_of KIND)) (Self.as_number self)) };

    // The word of a whole number, and a word read as signed.
    fn from_signed(z: i64) -> Self
        requires { SFits (word (format_of KIND)) z }
        ensures { Self.as_number result ≡ of_z (word (format_of KIND)) z };

    fn signed(self) -> i64
        ensures { result ≡ to_z (word (format_of KIND)) (Self.as_number self) };

    // The sum of two words modulo 2^W.
    fn wrapping_sum(self, other: Self) -> Self
        ensures { Self.as_number result ≡ (Self.as_number self + Self.as_number other) % 2 ^ word_bits (format_of KIND) };

    // Neither a NaN nor infinite: the exponent's field is not all ones.
    fn is_finite(self) -> bool
        ensures { (result ≡ true) ↔ (Self.as_number self % top (format_of KIND) < ones (format_of KIND) * hid (format_of KIND)) };

    // Of a magnitude up to L, by the exponent's field.
    fn is_within_limit(self) -> bool
        ensures { (result ≡ true) ↔ (Self.as_number self % top (format_of KIND) / hid (format_of KIND) < cap (format_of KIND)) };

    // The bits of the rounded value.
    fn rounded(self) -> Self
        requires { Self.as_number self % top (format_of KIND) / hid (format_of KIND) < cap (format_of KIND) }
        ensures { Self.as_number result ≡ to_bits (format_of KIND) (rounded (format_of KIND) (from_bits (format_of KIND) (Self.as_number self))) };

    // The value without its fraction, by its exponent's field and digits. A field of 0 means that there is no leading one; such a value is
    // below 1 with or without it.
    fn truncated(self) -> i64
        requires { Self.as_number self % top (format_of KIND) / hid (format_of KIND) < cap (format_of KIND) }
        ensures { result ≡ truncated (from_bits (format_of KIND) (Self.as_number self)) };

    ghost as_wide: { Self.BYTES ≡ word_bytes (format_of KIND) };
}

// digits * 2^exponent / 2^bias, any fraction dropped.
fn shifted(digits: u64, exponent: u64, bias: u64) -> u64
    requires { (digits < 2 ^ 53) × (exponent ≤ bias + 10) × (bias < 2000) }
    ensures { result ≡ digits * 2 ^ exponent / 2 ^ bias }
{
    if bias <= exponent {
        return digits << (exponent - bias);
    }
    let places = bias - exponent;
    if 64 <= places {
        return 0;
    }
    digits >> places
}

// What the two impls differ in is the machine's own floats, and the kind's constants.
impl Value for u32 {
    type Float = f32;

    ghost KIND = { Single };

    ghost float = { λ x. x };

    const KIND: Kind = Kind::Single;

    fn power(k: u8) -> f32 {
        POWERS32[k as usize]
    }

    fn neg_power(k: u8) -> f32 {
        NEG_POWERS32[k as usize]
    }

    fn float(self) -> f32 {
        f32::from_bits(self)
    }

    fn bits_of(x: f32) -> u32 {
        f32::to_bits(x)
    }

    fn two_products(x: f32, up: f32, down: f32) -> f32 {
        let raised: f32 = x * up;
        let lowered: f32 = raised * down;
        lowered
    }

    // The halves are floats exactly, and so is the upper one times 2^16: only the sum rounds. There is no branch.
    fn nearest(self) -> f32 {
        let high = ((self / 0x1_0000) as u16).cast_signed();
        let low = (self % 0x1_0000) as u16;
        (high as f32) * 65536.0 + (low as f32)
    }

    fn from_signed(z: i64) -> u32 {
        (z as i32).cast_unsigned()
    }

    fn signed(self) -> i64 {
        self.cast_signed() as i64
    }

    fn wrapping_sum(self, other: u32) -> u32 {
        self.wrapping_add(other)
    }

    fn is_finite(self) -> bool {
        self % 0x8000_0000 < 0x7F80_0000
    }

    fn is_within_limit(self) -> bool {
        self % 0x8000_0000 / 0x80_0000 < 158
    }

    // The constant is added and taken off again, each rounded once in the kind. Neither can be left out, though on paper they cancel, and
    // neither may be done in a wider kind.
    fn rounded(self) -> u32 {
        let raised: f32 = f32::from_bits(self) + 12582912.0;
        let lowered: f32 = raised - 12582912.0;
        f32::to_bits(lowered)
    }

    fn truncated(self) -> i64 {
        let exponent = self % 0x8000_0000 / 0x80_0000;
        let digits = 0x80_0000 + self % 0x80_0000;
        let magnitude = shifted(digits as u64, exponent as u64, 150) as i64;
        if self < 0x8000_0000 {
            magnitude
        } else {
            0 - magnitude
        }
    }

    ghost as_wide = { refl };
}

impl Value for u64 {
    type Float = f64;

    ghost KIND = { Double };

    ghost float = { λ x. x };

    const KIND: Kind = Kind::Double;

    fn power(k: u8) -> f64 {
        POWERS64[k as usize]
    }

    fn neg_power(k: u8) -> f64 {
        NEG_POWERS64[k as usize]
    }

    fn float(self) -> f64 {
        f64::from_bits(self)
    }

    fn bits_of(x: f64) -> u64 {
        f64::to_bits(x)
    }

    fn two_products(x: f64, up: f64, down: f64) -> f64 {
        let raised: f64 = x * up;
        let lowered: f64 = raised * down;
        lowered
    }

    // As for 32 bits, by halves of 32.
    fn nearest(self) -> f64 {
        let high = ((self / 0x1_0000_0000) as u32).cast_signed();
        let low = (self % 0x1_0000_0000) as u32;
        (high as f64) * 4294967296.0 + (low as f64)
    }

    fn from_signed(z: i64) -> u64 {
        z.cast_unsigned()
    }

    fn signed(self) -> i64 {
        self.cast_signed()
    }

    fn wrapping_sum(self, other: u64) -> u64 {
        self.wrapping_add(other)
    }

    fn is_finite(self) -> bool {
        self % 0x8000_0000_0000_0000 < 0x7FF0_0000_0000_0000
    }

    fn is_within_limit(self) -> bool {
        self % 0x8000_0000_0000_0000 / 0x10_0000_0000_0000 < 1086
    }

    fn rounded(self) -> u64 {
        let raised: f64 = f64::from_bits(self) + 6755399441055744.0;
        let lowered: f64 = raised - 6755399441055744.0;
        f64::to_bits(lowered)
    }

    fn truncated(self) -> i64 {
        let exponent = self % 0x8000_0000_0000_0000 / 0x10_0000_0000_0000;
        let digits = 0x10_0000_0000_0000 + self % 0x10_0000_0000_0000;
        let magnitude = shifted(digits, exponent, 1075) as i64;
        if self < 0x8000_0000_0000_0000 {
            magnitude
        } else {
            0 - magnitude
        }
    }

    ghost as_wide = { refl };
}

// The tables are each kind's own, since no float of one kind is made of one of the other.
const POWERS64: [f64; 19] = [
    1.0,
    10.0,
    100.0,
    1000.0,
    10000.0,
    100000.0,
    1000000.0,
    10000000.0,
    100000000.0,
    1000000000.0,
    10000000000.0,
    100000000000.0,
    1000000000000.0,
    10000000000000.0,
    100000000000000.0,
    1000000000000000.0,
    10000000000000000.0,
    100000000000000000.0,
    1000000000000000000.0,
];

const NEG_POWERS64: [f64; 19] = [
    1.0,
    0.1,
    0.01,
    0.001,
    0.0001,
    0.00001,
    0.000001,
    0.0000001,
    0.00000001,
    0.000000001,
    0.0000000001,
    0.00000000001,
    0.000000000001,
    0.0000000000001,
    0.00000000000001,
    0.000000000000001,
    0.0000000000000001,
    0.00000000000000001,
    0.000000000000000001,
];

const POWERS32: [f32; 11] = [
    1.0,
    10.0,
    100.0,
    1000.0,
    10000.0,
    100000.0,
    1000000.0,
    10000000.0,
    100000000.0,
    1000000000.0,
    10000000000.0,
];

const NEG_POWERS32: [f32; 11] = [
    1.0,
    0.1,
    0.01,
    0.001,
    0.0001,
    0.00001,
    0.000001,
    0.0000001,
    0.00000001,
    0.000000001,
    0.0000000001,
];
