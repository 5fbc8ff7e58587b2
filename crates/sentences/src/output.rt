// The two outputs of a program. The first write that fails is kept and nothing is written behind it, so what stands on the outputs is the
// front of what was to be said; `finish` gives that failure, and `main` ends with it.
use std::fmt::Display;
use std::io;
use std::io::{Stderr, Stdout, Write};

#[derive(Drop)]
pub struct Output {
    out: Stdout,
    err: Stderr,
    so_far: io::Result<()>,
}

impl Output {
    pub fn new(out: Stdout, err: Stderr) -> Output {
        Output {
            out,
            err,
            so_far: Ok(()),
        }
    }

    // These bytes, on standard output.
    pub fn say(&mut self, t: &[u8]) {
        if self.so_far.is_ok() {
            self.so_far = self.out.write_all(t);
        }
    }

    // A value as text, on standard output.
    pub fn show<D: Display + Drop>(&mut self, value: D) {
        if self.so_far.is_ok() {
            self.so_far = self.out.write_fmt(value);
        }
    }

    // The same two on standard error, where a program says why it did nothing.
    pub fn complain(&mut self, t: &[u8]) {
        if self.so_far.is_ok() {
            self.so_far = self.err.write_all(t);
        }
    }

    pub fn complain_of<D: Display + Drop>(&mut self, value: D) {
        if self.so_far.is_ok() {
            self.so_far = self.err.write_fmt(value);
        }
    }

    pub fn finish(self) -> io::Result<()> {
        self.so_far
    }
}
