// Prints what the leaves make of document 01's own values and of edge values, so that the gate can hold them to what an independent
// program gives. A line of a value: its kind, bits, exponent and factor, and its whole number with the bits that it comes back as, or
// "exception".
#![tactic(auto)]

use bits::windows::{first_above, unpack, unused_clear};
use bits::word::Word;
use checks::kind::largest_exponent;
use decimal::back::back;
use decimal::scale::scale_of;
use decimal::value::Value;
use decimal::whole::whole;
use rules::{Exponent, Factor, Pair};
use sentences::Output;
use std::fmt::Display;
use std::{fmt, io};

// One value by its bits, with an exponent and a factor.
fn value<V: Value>(to: &mut Output, v: V, e: u8, f: u8) {
    if largest_exponent(V::KIND) < e || e < f {
        return;
    }
    let scale = scale_of(Pair {
        exponent: Exponent(e),
        factor: Factor(f),
    });
    let width = 8 * V::BYTES;
    let digits = 2 * V::BYTES;
    let bits = v.number();
    to.show(format_args!("{width} {bits:0digits$x} e {e} f {f}: "));
    match whole(v, &scale) {
        None => to.show("exception\n"),
        Some(z) => {
            let again = back(V::from_signed(z), &scale).number();
            to.show(format_args!("{z} back {again:0digits$x}\n"));
        }
    }
}

fn values<V: Value>(to: &mut Output, cases: &[(V, u8, u8)]) {
    for (v, e, f) in cases {
        value(to, *v, *e, *f);
    }
}

// The values of R1, R2 and R4 to R6, that of R7, and those of R8 and R9.
const DOCUMENT_FIRST: [(u32, u8, u8); 12] = [
    (0x3F9D70A4, 2, 0),
    (0x4091EB85, 2, 0),
    (0x40FC7AE1, 2, 0),
    (0x3DF5C28F, 2, 0),
    (0x3FC00000, 1, 0),
    (0x7FC00000, 1, 0),
    (0x40200000, 1, 0),
    (0x3EAAAAAB, 1, 0),
    (0x80000000, 0, 0),
    (0x40E00000, 0, 0),
    (0xBF800000, 0, 0),
    (0x3F800000, 0, 0),
];

const DOCUMENT_WIDE: [(u64, u8, u8); 1] = [(0x3FF8000000000000, 1, 0)];

const DOCUMENT_LAST: [(u32, u8, u8); 3] = [
    (0x4A800002, 0, 0),
    (0x4EFFFFFF, 0, 0),
    (0x4F000000, 0, 0),
];

// Edges of 32-bit values: one multiplication or two, ties, L, the ends of the range, and what is no number.
const EDGES_32: [(u32, u8, u8); 28] = [
    (0x4209DCC4, 8, 3),
    (0xC9B5237D, 2, 1),
    (0xC5B3B800, 5, 1),
    (0xC2BC0000, 6, 1),
    (0x4A97FCE2, 2, 1),
    (0x3F666666, 1, 0),
    (0x3F666666, 2, 1),
    (0x3EB851EC, 10, 3),
    (0xBEB851EC, 10, 3),
    (0x40848312, 8, 2),
    (0x4709788C, 8, 6),
    (0x2EDBE6FF, 10, 0),
    (0x40400000, 10, 10),
    (0xCEFFFFFF, 0, 0),
    (0xCF000000, 0, 0),
    (0xCD4CCCCC, 1, 0),
    (0xCD4CCCCD, 1, 0),
    (0xBE99999A, 0, 0),
    (0xBE99999A, 1, 0),
    (0x00000000, 10, 3),
    (0x80000000, 10, 3),
    (0x00000001, 10, 0),
    (0x807FFFFF, 10, 0),
    (0x7F7FFFFF, 10, 10),
    (0x7F800000, 0, 0),
    (0xFF800000, 0, 0),
    (0xFFC12345, 0, 0),
    (0x7F800001, 0, 0),
];

// The constant added and subtracted: about 2^22 and 2^23, where the sum goes to even, where a fraction is dropped, and about L.
const ROUNDING_32: [(u32, u8, u8); 34] = [
    (0x4A7FFFFC, 0, 0),
    (0x4A7FFFFE, 0, 0),
    (0x4A800000, 0, 0),
    (0x4A800001, 0, 0),
    (0x4A800004, 0, 0),
    (0x4A800006, 0, 0),
    (0xCA7FFFFE, 0, 0),
    (0xCA800000, 0, 0),
    (0xCA800001, 0, 0),
    (0xCA800002, 0, 0),
    (0x4AFFFFFE, 0, 0),
    (0x4B000000, 0, 0),
    (0x4B000001, 0, 0),
    (0xCAFFFFFF, 0, 0),
    (0xCB000001, 0, 0),
    (0x4BA00001, 0, 0),
    (0xCBA00001, 0, 0),
    (0x48CCCCD0, 1, 0),
    (0xC8CCCCD0, 1, 0),
    (0x4112B717, 10, 4),
    (0x47B0F780, 5, 3),
    (0x49B5237D, 2, 1),
    (0x45B3B800, 5, 1),
    (0x40E00000, 9, 3),
    (0x425D3333, 9, 4),
    (0xC3F0F756, 5, 1),
    (0xC79AECA6, 2, 0),
    (0xC78C6134, 2, 0),
    (0xC6029F9A, 3, 0),
    (0xC294DFBE, 7, 2),
    (0xC21E6666, 9, 4),
    (0x4EFFFFFE, 0, 0),
    (0x4D4CCCCC, 2, 1),
    (0x4A03126E, 4, 1),
];

// The same of 64-bit values, with 2^62 and 1.5 times 2^62.
const EDGES_64: [(u64, u8, u8); 25] = [
    (0x40A0610A917A2CBA, 17, 5),
    (0xC08561999999999A, 14, 1),
    (0x3FD3333333333333, 1, 0),
    (0x3FD3333333333333, 2, 1),
    (0x414010A57EB851EC, 18, 9),
    (0x414098D3A6666666, 16, 7),
    (0x3CA1B9E627A00D07, 18, 0),
    (0x4008000000000000, 18, 18),
    (0x43DFFFFFFFFFFFFF, 0, 0),
    (0x43E0000000000000, 0, 0),
    (0xC3DFFFFFFFFFFFFF, 0, 0),
    (0xC3E0000000000000, 0, 0),
    (0x43D0000000000000, 0, 0),
    (0x43D8000000000000, 0, 0),
    (0xBFD3333333333333, 0, 0),
    (0x0000000000000000, 18, 5),
    (0x8000000000000000, 18, 5),
    (0x0000000000000001, 18, 0),
    (0x000FFFFFFFFFFFFF, 18, 0),
    (0xFFEFFFFFFFFFFFFF, 18, 18),
    (0x7FF0000000000000, 0, 0),
    (0xFFF0000000000000, 0, 0),
    (0x7FF8000000000000, 0, 0),
    (0xFFF8DEADBEEF0001, 0, 0),
    (0x7FF0000000000001, 0, 0),
];

// As the 32-bit ones, about 2^51 and 2^52, and a value at which the constant of 32-bit floats would show.
const ROUNDING_64: [(u64, u8, u8); 31] = [
    (0x431FFFFFFFFFFFFC, 0, 0),
    (0x431FFFFFFFFFFFFE, 0, 0),
    (0x4320000000000000, 0, 0),
    (0x4320000000000001, 0, 0),
    (0x4320000000000002, 0, 0),
    (0x4320000000000004, 0, 0),
    (0x4320000000000006, 0, 0),
    (0xC31FFFFFFFFFFFFE, 0, 0),
    (0xC320000000000000, 0, 0),
    (0xC320000000000001, 0, 0),
    (0xC320000000000002, 0, 0),
    (0x432FFFFFFFFFFFFE, 0, 0),
    (0x4330000000000000, 0, 0),
    (0x4330000000000001, 0, 0),
    (0xC32FFFFFFFFFFFFF, 0, 0),
    (0xC330000000000001, 0, 0),
    (0x42E999999999999D, 1, 0),
    (0xC2E999999999999D, 1, 0),
    (0x42FC096DC8F2DEC0, 8, 7),
    (0x4189DE7CFFDC0C20, 11, 3),
    (0x408561999999999A, 14, 1),
    (0x4052117734CCE743, 14, 0),
    (0xC010666666666666, 15, 0),
    (0xC1B4A3BA108CDF26, 7, 0),
    (0xC182C9AD83374BC7, 8, 0),
    (0xC150EF2200000000, 15, 6),
    (0xC1E031ACD6366666, 12, 6),
    (0xC0F46BC028F5C28F, 2, 0),
    (0x43DFFFFFFFFFFFFE, 0, 0),
    (0x43A9999999999999, 6, 5),
    (0x4195FD7FE1796495, 14, 3),
];

// Each of the numbers, with a space behind it.
#[derive(Clone, Copy)]
struct Spaced<'a, D>(&'a [D]);

impl<D: Display + Copy + Drop> Display for Spaced<'_, D> {
    fn fmt<W: fmt::Write>(&self, f: &mut fmt::Formatter<W>) -> fmt::Result {
        for n in self.0 {
            let n = *n;
            write!(f, "{n} ")?;
        }
        Ok(())
    }
}

// R1's packed fields: 111, 444, 777, 0, of 10 bits each.
const FIRST_FIELDS: [u8; 5] = [0x6F, 0xF0, 0x96, 0x30, 0x00];

// R1's packed part and R2's, read field by field.
fn unpacked(to: &mut Output) {
    let mut first: [u32; 4] = [9; 4];
    unpack(&FIRST_FIELDS, 10, &mut first);
    to.show(format_args!("unpack 10: {}\n", Spaced(&first)));
    let mut second: [u64; 4] = [9; 4];
    unpack(&[0x00, 0x0A], 4, &mut second);
    to.show(format_args!("unpack 4: {}\n", Spaced(&second)));
}

// The first of R1's fields above a bound: about each of them, and the bound that no field of 10 bits is above.
fn above(to: &mut Output) {
    to.say(b"first above: ");
    for most in [110, 111, 443, 444, 776, 777, 1023] {
        let first = first_above(&FIRST_FIELDS, 10, 4, most);
        to.show(format_args!("{first} "));
    }
    to.say(b"\n");
}

fn clear_or_set(clear: bool) -> &'static str {
    if clear { "clear" } else { "set" }
}

// The unused bits of R6's packed byte and of R10's, and of a full byte.
fn unused(to: &mut Output) {
    let six = clear_or_set(unused_clear(&[0x08], 2, 2));
    let ten = clear_or_set(unused_clear(&[0x18], 2, 2));
    let full = clear_or_set(unused_clear(&[0x18], 8, 1));
    to.show(format_args!("unused of 08 at 2 fields of 2 bits: {six}\n"));
    to.show(format_args!("unused of 18 at 2 fields of 2 bits: {ten}\n"));
    to.show(format_args!("unused of 18 at 1 field of 8 bits: {full}\n"));
}

// The bits that each of the numbers takes.
fn widths<W: Word>(to: &mut Output, numbers: &[W]) {
    for n in numbers {
        let width = n.width();
        to.show(format_args!("{width} "));
    }
}

// Numbers about powers of two.
const NARROW: [u32; 5] = [0, 1, 777, 0x7FFF_FFFF, 0x8000_0000];

const WIDE: [u64; 4] = [0, 0xFFFF_FFFF, 0x1_0000_0000, 0xFFFF_FFFF_FFFF_FFFF];

fn main(rt: HostRuntime) -> io::Result<()> {
    let mut to = Output::new(rt.stdout(), rt.stderr());
    values(&mut to, &DOCUMENT_FIRST);
    values(&mut to, &DOCUMENT_WIDE);
    values(&mut to, &DOCUMENT_LAST);
    values(&mut to, &EDGES_32);
    values(&mut to, &ROUNDING_32);
    values(&mut to, &EDGES_64);
    values(&mut to, &ROUNDING_64);
    unpacked(&mut to);
    above(&mut to);
    unused(&mut to);
    to.say(b"widths: ");
    widths(&mut to, &NARROW);
    widths(&mut to, &WIDE);
    to.say(b"\n");
    to.finish()
}
