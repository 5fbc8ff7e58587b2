// Answers framed requests on standard input, so that another program can drive the library's calls (docs/FRAMES.md).
#![tactic(auto)]

mod frames;
mod rooms;
mod serve;

use crate::frames::{Broken, Wire};
use crate::rooms::{MOST_VALUES, Rooms, room};
use crate::serve::serve;
use rules::{Answer, Kind};
use std::io;

// A loop has to end: this one does after more requests than anybody sends.
const MOST: u64 = 1_000_000_000_000;

// What a request that breaks the shape is answered.
const BROKEN: Answer = Answer {
    number: 255,
    vector: 0,
    place: 0,
};

fn all(wire: &mut Wire) -> Result<(), Broken> {
    let mut page = room(0);
    let mut pairs = room(0);
    let mut raw = room(0);
    let mut singles: [u32; MOST_VALUES] = room(0);
    let mut doubles: [u64; MOST_VALUES] = room(0);
    for _ in 0..MOST {
        let Some(request) = wire.request()? else {
            break;
        };
        let rooms = Rooms {
            page: &mut page,
            pairs: &mut pairs,
            raw: &mut raw,
        };
        match request.kind {
            Kind::Single => serve(wire, rooms, &mut singles, request)?,
            Kind::Double => serve(wire, rooms, &mut doubles, request)?,
        }
    }
    Ok(())
}

fn main(rt: HostRuntime) -> io::Result<()> {
    let mut wire = Wire::new(rt.stdin(), rt.stdout());
    match all(&mut wire) {
        Ok(()) => Ok(()),
        Err(Broken::Request) => wire.answer(BROKEN),
        Err(Broken::Wire(error)) => Err(error),
    }
}
