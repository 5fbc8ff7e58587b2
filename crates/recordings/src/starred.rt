// R1 to R9: the pair that is chosen, the writer's bytes, what the reader makes of them, and the examiner's answer.
ghost use Rattle.std.specs.Prelude.{◌≤◌};

use crate::chosen::chosen;
use crate::pages::both;
use crate::show::{Bytes, Recorder, Small, filled, is_done, repeated};
use writer::write;

// A column of one vector under its name, with the vector's exponent and factor.
pub type Column<V> = (&'static str, u8, u8, &'static [V]);

const FIRST: [Column<u32>; 5] = [
    // 1.23, 4.56, 7.89, 0.12
    (
        "R1",
        2,
        0,
        &[0x3F9D70A4, 0x4091EB85, 0x40FC7AE1, 0x3DF5C28F],
    ),
    // 1.5, a NaN, 2.5, 0.33333334
    (
        "R2",
        1,
        0,
        &[0x3FC00000, 0x7FC00000, 0x40200000, 0x3EAAAAAB],
    ),
    // -0.0
    ("R4", 0, 0, &[0x80000000]),
    // 7.0, 7.0
    ("R5", 0, 0, &[0x40E00000, 0x40E00000]),
    // -1.0, 1.0
    ("R6", 0, 0, &[0xBF800000, 0x3F800000]),
];

const SEVENTH: [Column<u64>; 1] = [
    // 1.5
    ("R7", 1, 0, &[0x3FF8000000000000]),
];

const LAST: [Column<u32>; 3] = [
    // 4194305.0, rounded to 4,194,304
    ("R8", 0, 0, &[0x4A800002]),
    // 2147483520.0, rounded to 2^31
    ("R9a", 0, 0, &[0x4EFFFFFF]),
    // 2147483648.0
    ("R9b", 0, 0, &[0x4F000000]),
];

// Each column's choice and page.
pub fn rounds<V: Small>(to: &mut Recorder, columns: &[Column<V>]) {
    for (name, exponent, factor, values) in columns {
        chosen(to, *name, values);
        written(to, name, values, &[*exponent, *factor], 80);
    }
}

// A column's page, written into so many bytes, and what is made of it.
fn written<V: Small>(to: &mut Recorder, name: &str, values: &[V], pairs: &[u8], room: usize)
    requires { room ≤ 80 }
{
    let mut page: [u8; 80] = repeated(0xEE);
    let page = &mut page[..room];
    let wrote = write(values, 10, pairs, page);
    let page = filled(page, wrote);
    to.line(format_args!("{name} write"), wrote, Bytes(page));
    if is_done(wrote) {
        both::<V>(to, name, page);
    }
}

pub fn run(to: &mut Recorder) {
    rounds(to, &FIRST);
    rounds(to, &SEVENTH);
    rounds(to, &LAST);
    // R3: no values, and so no pairs
    written::<u32>(to, "R3", &[], &[], 8);
}
