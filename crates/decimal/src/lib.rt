// From the bits of a value to its whole number or "exception", and back. What a kind's floats do stands in `value.rt`, all else once for
// both kinds.
#![tactic(auto)]

pub mod value; // value.rt: the values of the two kinds, their floats and their powers of ten
pub mod scale; // scale.rt: a pair with its powers of ten, looked up once for a vector
pub mod signed; // signed.rt: the field that a signed whole number leaves above the frame
pub mod back; // back.rt: a whole number back to the bits of a value
pub mod whole; // whole.rt: the bits of a value to its whole number
