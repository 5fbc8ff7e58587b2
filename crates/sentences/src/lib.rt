// Answers as a person reads them: document 01's three numbers, and a sentence.
#![tactic(auto)]

mod output;

pub use output::Output;
use rules::Answer;
use std::fmt;

// ---- pieces of a line

pub fn text(to: &mut Output, t: &[u8]) {
    to.say(t);
}

pub fn number(to: &mut Output, n: u64) {
    to.show(n);
}

// The same on standard error, where a program says why it did nothing.
pub fn error(to: &mut Output, t: &[u8]) {
    to.complain(t);
}

// So many of something, one of which is called so.
#[derive(Clone, Copy)]
pub struct Many<'a>(pub u64, pub &'a str);

impl fmt::Display for Many<'_> {
    fn fmt<W: fmt::Write>(&self, f: &mut fmt::Formatter<W>) -> fmt::Result {
        let Many(n, one) = *self;
        let ending = ending(n);
        write!(f, "{n} {one}{ending}")
    }
}

// The same of a name that need not be UTF-8.
pub fn count(to: &mut Output, n: u64, one: &[u8]) {
    to.show(format_args!("{n} "));
    text(to, one);
    to.show(ending(n));
}

fn ending(n: u64) -> &'static str {
    if n == 1 { "" } else { "s" }
}

// ---- answers

// An answer's three numbers.
#[derive(Clone, Copy)]
pub struct Numbers(pub Answer);

impl fmt::Display for Numbers {
    fn fmt<W: fmt::Write>(&self, f: &mut fmt::Formatter<W>) -> fmt::Result {
        let Answer {
            number,
            vector,
            place,
        } = self.0;
        write!(f, "{number} {vector} {place}")
    }
}

// A done: what was done, and how many of what the place counts.
pub fn done(to: &mut Output, a: Answer, what: &[u8], one: &[u8]) {
    to.show(format_args!("{}: ", Numbers(a)));
    text(to, what);
    count(to, a.place, one);
    text(to, b"\n");
}

pub fn refusal(to: &mut Output, a: Answer) {
    to.show(format_args!("{}: ", Numbers(a)));
    where_at(to, a);
    text(to, sentence(a.number));
    text(to, b"\n");
}

// The vector and the place, where the row names them. Row 7 gives vector 0 for the offsets too, so there it names none.
fn where_at(to: &mut Output, a: Answer) {
    let vector = a.vector;
    let place = a.place;
    match a.number {
        7 if vector == 0 => {}
        7..=12 | 20 | 24 => to.show(format_args!("vector {vector}: ")),
        13 => to.show(format_args!("vector {vector}, list index {place}: ")),
        17 | 21..=23 => to.show(format_args!("vector {vector}, position {place}: ")),
        _ => {}
    }
}

// Document 01's table, and the rows that came later: 17, and those from 30 up. By numbers, since an answer carries the row's. Bytes: by their `b` programs/try-alp finds the sentences here.
fn sentence(row: u64) -> &'static [u8] {
    match row {
        1 => b"fewer than 8 bytes",
        2 => b"the version is not 1",
        3 => b"the mode is not 0",
        4 => b"the integer encoding is not 0",
        5 => b"s is below 3 or above 10",
        6 => b"more than 16,384 values",
        7 => b"the offsets, a vector's metadata or its data run past the end",
        8 => b"an offset differs from the layout's",
        9 => b"the exponent is above the kind's largest",
        10 => b"the factor is above the exponent",
        11 => b"more exceptions than values in the vector",
        12 => b"the width is above the kind's",
        13 => b"a position is not below the vector's count, or not above the one before",
        14 => b"bytes after the last vector",
        15 => b"the lent output is too short",
        16 => b"the pairs are not one per vector",
        17 => b"frame plus field leaves the kind's signed range",
        20 => b"an unused packed bit is 1",
        21 =>
            b"an unlisted whole number comes back as a value that is an exception, or that turns into another whole number",
        22 => b"a listed value is no exception",
        23 => b"a listed position does not hold the stand-in",
        24 => b"the frame is not the smallest, or the width is not the fewest bits",
        30 => b"there is no vector of that number",
        31 => b"no values, or more than 1,024",
        _ => b"not a row of the table",
    }
}
