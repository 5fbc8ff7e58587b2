// Columns of the lengths at which vectors begin, end and are full, at the smallest and the largest s.
ghost use Rattle.std.specs.Prelude.{◌*◌, ◌&&◌, nat_le, IsTrue};
ghost use Rattle.std.specs.List.{list_all};

use crate::show::{Recorder, Small, filled, is_done, repeated};
use decimal::value::Value;
use examiner::examine;
use reader::read;
use rules::Answer;
use std::fmt::Display;
use writer::{measure, write};

const SINGLE: [u32; 8] = [
    0x3F800000, 0x80000000, 0x40200000, 0x7FC12345, 0x40E00000, 0x4E6E6B28, 0x3E99999A, 0xBF800000,
];

const DOUBLE: [u64; 8] = [
    0x3FF0000000000000,
    0x8000000000000000,
    0x4004000000000000,
    0x7FF8000000012345,
    0x401C000000000000,
    0x41CDCD6500000000,
    0x3FD3333333333333,
    0xBFF0000000000000,
];

// How many values, s, and how many vectors they make.
type Column = (u16, u8, u16);

const COLUMNS: [Column; 20] = [
    (0, 3, 0),
    (1, 3, 1),
    (7, 3, 1),
    (8, 3, 1),
    (9, 3, 2),
    (1023, 3, 128),
    (1024, 3, 128),
    (1025, 3, 129),
    (16384, 3, 2048),
    (16385, 3, 2049),
    (0, 10, 0),
    (1, 10, 1),
    (7, 10, 1),
    (8, 10, 1),
    (9, 10, 1),
    (1023, 10, 1),
    (1024, 10, 1),
    (1025, 10, 2),
    (16384, 10, 16),
    (16385, 10, 17),
];

// No column has more values, no page of one more bytes (the longest has 178,184), and no column's pairs are longer.
const VALUES: usize = 16385;

const PAGE: usize = 200000;

const PAIRS: usize = 4100;

// One number that tells byte strings apart.
fn checksum(t: &[u8]) -> u64 {
    t.iter().fold(
        0,
        |sum, b| (sum % 4294967291 * 31 + u64::from(*b)) % 4294967291,
    )
}

// Which column, the call, its answer, and what it gives.
fn said<V: Value, G: Display + Drop>(
    to: &mut Recorder,
    s: u8,
    values: &[V],
    call: &str,
    a: Answer,
    given: G,
) {
    let bits = 8 * V::BYTES;
    let count = values.len();
    to.line(
        format_args!("{bits} s {s} values {count}: {call}"),
        a,
        given,
    );
}

// The patterns in a changing order.
fn fill<V: Value>(values: &mut [V], patterns: &[V; 8]) {
    for (i, value) in values.iter_mut().enumerate() {
        let i = i % 65536;
        *value = patterns[(i * 5 + i / 8) % 8];
    }
}

// Measured, and then written into exactly so many bytes.
fn written<V: Value>(
    to: &mut Recorder,
    values: &[V],
    s: u8,
    pairs: &[u8],
    page: &mut [u8],
) -> Answer {
    let measured = measure(values, s, pairs);
    said(to, s, values, "measure", measured, "");
    let length = page.len().min(measured.place as usize);
    let page = &mut page[..length];
    page.fill(0xEE);
    let wrote = write(values, s, pairs, page);
    if is_done(wrote) {
        let sum = checksum(filled(page, wrote));
        said(to, s, values, "write", wrote, format_args!(" sum {sum}"));
    } else {
        said(to, s, values, "write", wrote, "");
    }
    wrote
}

// What reader and examiner make of a page.
fn read_back<V: Value + PartialEq>(
    to: &mut Recorder,
    page: &[u8],
    values: &[V],
    s: u8,
    back: &mut [V],
) {
    for place in back.iter_mut() {
        *place = V::from_number(0);
    }
    let answer = read(page, back);
    let same = if filled(back, answer) == values {
        " same"
    } else {
        ""
    };
    said(to, s, values, "read", answer, same);
    said(to, s, values, "examine", examine::<V>(page), "");
}

// Columns that have room, in arrays that are made once for all of them.
fn each<V: Small + PartialEq>(to: &mut Recorder, patterns: &[V; 8], columns: &[Column])
    requires { IsTrue (list_all (λ c. nat_le c.0 VALUES && nat_le (2 * c.2) PAIRS) columns.now) }
{
    let mut column: [V; VALUES] = repeated(V::from_number(0));
    fill(&mut column, patterns);
    let pairs: [u8; PAIRS] = repeated(0);
    let mut page: [u8; PAGE] = repeated(0xEE);
    let mut back: [V; VALUES] = repeated(V::from_number(0));
    for (count, s, vectors) in columns {
        let values = &column[..usize::from(*count)];
        let pairs = &pairs[..2 * usize::from(*vectors)];
        let wrote = written(to, values, *s, pairs, &mut page);
        if is_done(wrote) {
            read_back(to, filled(&page, wrote), values, *s, &mut back);
        }
    }
}

pub fn run(to: &mut Recorder) {
    each(to, &SINGLE, &COLUMNS);
    each(to, &DOUBLE, &COLUMNS);
}
