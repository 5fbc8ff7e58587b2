// `alp read KIND PAGE COLUMN`, and with NUMBER behind it one vector of the page alone.
ghost use Rattle.std.specs.Prelude.{◌*◌, ◌≤◌, length};

use crate::args::{kind, number, words};
use crate::rooms::{DOUBLE_COLUMN, PAGE_FILE, SINGLE_COLUMN, doubles, room, singles};
use crate::say::{Failure, WHO, place};
use columns::bytes;
use decimal::value::Value;
use files::{load, save};
use reader::read;
use rules::{Answer, Kind};
use sentences::{Output, done};
use std::env::Env;
use std::fs::Files;
use vector_reader::read_vector;

pub fn run(rt: &(impl Env + Files + Alloc), to: &mut Output) -> Result<(), Failure> {
    let words = words(rt);
    if words != 5 && words != 6 {
        return Err(Failure::Usage("read takes KIND, PAGE and COLUMN, and perhaps NUMBER"));
    }
    let kind = kind(rt)?;
    let vector = if words == 6 {
        let number = number(rt, 5).ok_or(Failure::Usage("NUMBER is a number from 0, below 2^64"))?;
        Some(number as usize)
    } else {
        None
    };
    match kind {
        Kind::Single => read_singles(rt, to, vector),
        Kind::Double => read_doubles(rt, to, vector),
    }
}

// By the rooms of each kind. They are not inlined, so that no other job has these rooms on its stack.
#[inline(never)]
fn read_singles(
    rt: &(impl Env + Files + Alloc),
    to: &mut Output,
    vector: Option<usize>,
) -> Result<(), Failure> {
    let mut values = singles();
    let mut column = room::<SINGLE_COLUMN>();
    read_file(rt, to, vector, &mut values, &mut column)
}

#[inline(never)]
fn read_doubles(
    rt: &(impl Env + Files + Alloc),
    to: &mut Output,
    vector: Option<usize>,
) -> Result<(), Failure> {
    let mut values = doubles();
    let mut column = room::<DOUBLE_COLUMN>();
    read_file(rt, to, vector, &mut values, &mut column)
}

// The whole page, or the vector of this number alone.
fn read_file<V: Value>(
    rt: &(impl Env + Files + Alloc),
    to: &mut Output,
    vector: Option<usize>,
    values: &mut [V],
    column: &mut [u8],
) -> Result<(), Failure>
    requires { (length values.old ≤ 16385) × (V.BYTES * 16385 ≤ length column.old) }
{
    let mut file = room::<PAGE_FILE>();
    let page = load_page(rt, to, vector, &mut file)?;
    let answer = restored(page, vector, values);
    let n = place(answer)?.min(values.len());
    save_values(rt, to, &values[..n], column)?;
    done(to, answer, b"read ", b"value");
    Ok(())
}

// The file's bytes, as the page that they should be.
fn load_page<'a>(
    rt: &(impl Env + Files + Alloc),
    to: &mut Output,
    vector: Option<usize>,
    room: &'a mut [u8],
) -> Result<&'a [u8], Failure> {
    let n = load(rt, to, WHO, 3, room)?;
    // a full room may have left some of the file behind: that can't change what the whole page gets (rooms.rt), but a vector may lie there
    if n == room.len() && vector.is_some() {
        return Err(Failure::LongFile);
    }
    Ok(&room[..n])
}

// The values, to the front of the room, and the library's answer.
fn restored<V: Value>(page: &[u8], vector: Option<usize>, values: &mut [V]) -> Answer {
    match vector {
        None => read(page, values),
        Some(number) => read_vector(page, number, values),
    }
}

// A new column file of the values.
fn save_values<V: Value>(
    rt: &(impl Env + Files + Alloc),
    to: &mut Output,
    values: &[V],
    column: &mut [u8],
) -> Result<(), Failure>
    requires { (length values.now ≤ 16385) × (V.BYTES * 16385 ≤ length column.old) }
{
    let room = &mut column[..V::BYTES * values.len()];
    bytes(values, room);
    save(rt, to, WHO, 4, room)?;
    Ok(())
}
