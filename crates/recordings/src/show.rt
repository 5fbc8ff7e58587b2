// Prints answers, bytes and values.
ghost use Rattle.std.specs.Prelude.{◌≤◌};
ghost use Rattle.std.specs.Mem.{type_size};
ghost use Rattle.std.proofs.Common.{lit≤};

use decimal::value::Value;
use rules::Answer;
use sentences::{Numbers, Output};
use std::fmt::Display;
use std::{fmt, io};

// A value of at most 8 bytes, so that outputs of a fixed room are arrays.
pub trait Small: Value {
    ghost small: { type_size Self.row ≤ 8 };
}

impl Small for u32 {
    ghost small = { lit≤ tt };
}

impl Small for u64 {
    ghost small = { lit≤ tt };
}

// Where the lines go.
#[derive(Drop)]
pub struct Recorder {
    to: Output,
}

impl Recorder {
    pub fn new(to: Output) -> Recorder {
        Recorder { to }
    }

    // A line: which call, what it answers, and what it gives.
    pub fn line<N: Display + Drop, G: Display + Drop>(&mut self, call: N, a: Answer, given: G) {
        self.to.show(format_args!("{call} {}{given}\n", Numbers(a)));
    }

    pub fn finish(self) -> io::Result<()> {
        self.to.finish()
    }
}

// Bytes in hexadecimal, a space before each.
#[derive(Clone, Copy)]
pub struct Bytes<'a>(pub &'a [u8]);

impl Display for Bytes<'_> {
    fn fmt<W: fmt::Write>(&self, f: &mut fmt::Formatter<W>) -> fmt::Result {
        for b in self.0 {
            let b = *b;
            write!(f, " {b:02x}")?;
        }
        Ok(())
    }
}

// Values by their bits, as the bytes.
#[derive(Clone, Copy)]
pub struct Values<'a, V>(pub &'a [V]);

impl<V: Value> Display for Values<'_, V> {
    fn fmt<W: fmt::Write>(&self, f: &mut fmt::Formatter<W>) -> fmt::Result {
        let digits = 2 * V::BYTES;
        for v in self.0 {
            let bits = v.number();
            write!(f, " {bits:0digits$x}")?;
        }
        Ok(())
    }
}

pub fn is_done(a: Answer) -> bool {
    a.number == 0
}

// The front of an output that a call filled, as many as a done says. A refusal fills nothing.
pub fn filled<T>(out: &[T], a: Answer) -> &[T] {
    if is_done(a) {
        &out[..out.len().min(a.place as usize)]
    } else {
        &[]
    }
}

// What stands in an output before a call: a value of bytes EE.
pub fn untouched<V: Value>() -> V {
    V::read(&[0xEE; 8], 0)
}

// The same in each place. A function of its own, so that a proof that cuts what it gives knows the length alone, and not the elements.
pub fn repeated<T: Copy, const N: usize>(t: T) -> [T; N] {
    [t; N]
}
