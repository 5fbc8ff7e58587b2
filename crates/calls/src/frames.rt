// Requests, what they bring, and answers, as bytes (docs/FRAMES.md).
ghost use Rattle.std.specs.Prelude.{◌≤◌, ◌*◌, IfOk, length};

use bits::word::Word;
use columns::{bytes, words};
use decimal::value::Value;
use rules::{Answer, Choice, Kind};
use std::io;
use std::io::{ErrorKind, Read, Stdin, Stdout, Write};

// Why the program ends before its input does.
#[derive(Debug, Drop)]
pub enum Broken {
    // a request that breaks the shape or is cut short
    Request,
    // a read or a write that failed
    Wire(io::Error),
}

impl From<io::Error> for Broken {
    fn from(error: io::Error) -> Broken {
        Broken::Wire(error)
    }
}

// ---- a request

#[derive(Clone, Copy)]
pub enum Call {
    Measure,
    Write,
    Read,
    Examine,
    ReadVector,
    Choose,
}

impl TryFrom<u8> for Call {
    type Error = Broken;

    fn try_from(byte: u8) -> Result<Call, Broken> {
        match byte {
            1 => Ok(Call::Measure),
            2 => Ok(Call::Write),
            3 => Ok(Call::Read),
            4 => Ok(Call::Examine),
            5 => Ok(Call::ReadVector),
            6 => Ok(Call::Choose),
            _ => Err(Broken::Request),
        }
    }
}

fn kind_of(byte: u8) -> Result<Kind, Broken> {
    match byte {
        32 => Ok(Kind::Single),
        64 => Ok(Kind::Double),
        _ => Err(Broken::Request),
    }
}

const REQUEST_BYTES: usize = 16;

// The call, the kind, s, and the three lengths.
#[derive(Clone, Copy)]
pub struct Request {
    pub call: Call,
    pub kind: Kind,
    pub s: u8,
    pub a: usize,
    pub b: usize,
    pub c: usize,
}

impl Request {
    fn parse(bytes: &[u8]) -> Result<Request, Broken> {
        let [call, kind, s, 0, lengths @ ..] = bytes else {
            return Err(Broken::Request);
        };
        if lengths.len() != 12 {
            return Err(Broken::Request);
        }
        Ok(Request {
            call: Call::try_from(*call)?,
            kind: kind_of(*kind)?,
            s: *s,
            a: u32::read(lengths, 0) as usize,
            b: u32::read(lengths, 4) as usize,
            c: u32::read(lengths, 8) as usize,
        })
    }

    // Refuses a length that is above its limit.
    pub fn limit(&self, a: usize, b: usize, c: usize) -> Result<(), Broken>
        ensures { IfOk result (λ _. (self.now.a ≤ a) × (self.now.b ≤ b) × (self.now.c ≤ c)) }
    {
        if a < self.a || b < self.b || c < self.c {
            return Err(Broken::Request);
        }
        Ok(())
    }
}

// ---- the two ends

// Where requests come from and answers go.
#[derive(Drop)]
pub struct Wire {
    input: Stdin,
    output: Stdout,
}

impl Wire {
    pub fn new(input: Stdin, output: Stdout) -> Wire {
        Wire { input, output }
    }

    // The next bytes, to the front of `part`: how many came, fewer than it has room for only where the input ends. Each read asks for all that
    // is missing and no more, since an input may come in messages, and a read that asks for less of one loses its rest.
    fn read(&mut self, part: &mut [u8]) -> io::Result<usize>
        ensures { IfOk result (λ count. count ≤ length part.new) }
    {
        let mut at: usize = 0;
        for _ in 0..u64::MAX { // an interrupted read is tried again, and a loop has to end
            if at == part.len() {
                break;
            }
            match self.input.read(&mut part[at..]) {
                Ok(0) => break,
                Ok(more) => at += more,
                Err(error) if error.kind() == ErrorKind::Interrupted => {}
                Err(error) => return Err(error),
            }
        }
        Ok(at)
    }

    // The next request. No bytes at all are the end of the input.
    pub fn request(&mut self) -> Result<Option<Request>, Broken> {
        let mut head = [0; REQUEST_BYTES];
        let count = self.read(&mut head)?;
        if count == 0 {
            return Ok(None);
        }
        Ok(Some(Request::parse(&head[..count])?))
    }

    // All of `part`.
    pub fn fill(&mut self, part: &mut [u8]) -> Result<(), Broken> {
        if self.read(part)? < part.len() {
            return Err(Broken::Request);
        }
        Ok(())
    }

    // All of `values`, by way of the first bytes of `raw`.
    pub fn fill_values<V: Value>(&mut self, values: &mut [V], raw: &mut [u8]) -> Result<(), Broken>
        requires { V.BYTES * length values.old ≤ length raw.old }
    {
        let raw = &mut raw[..V::BYTES * values.len()];
        self.fill(raw)?;
        words(raw, values);
        Ok(())
    }

    pub fn give(&mut self, bytes: &[u8]) -> io::Result<()> {
        self.output.write_all(bytes)
    }

    // Values, as the bytes that `fill_values` takes them from.
    pub fn give_values<V: Value>(&mut self, values: &[V], raw: &mut [u8]) -> io::Result<()>
        requires { V.BYTES * length values.now ≤ length raw.old }
    {
        let raw = &mut raw[..V::BYTES * values.len()];
        bytes(values, raw);
        self.give(raw)
    }

    pub fn answer(&mut self, a: Answer) -> io::Result<()> {
        let mut bytes: [u8; 24] = [0; 24];
        a.number.store(&mut bytes, 0);
        a.vector.store(&mut bytes, 8);
        a.place.store(&mut bytes, 16);
        self.give(&bytes)
    }

    pub fn choice(&mut self, c: Choice) -> io::Result<()> {
        self.answer(c.answer)?;
        self.give(&[c.exponent, c.factor])
    }
}
