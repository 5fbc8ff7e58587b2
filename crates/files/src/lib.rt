// Whole files that the program's words name: read into lent room, or made anew and written, never overwritten. What a system call did no
// contract can say (docs/UNSTATED.md), so each of its answers is looked at here. `who` is the program's name, for its complaints.
#![tactic(auto)]

ghost use Rattle.std.specs.Prelude.{◌≤◌, IfOk, length};

use sentences::Output;
use std::alloc::Allocator;
use std::env::{Env, FillError};
use std::fs::{Files, OpenFile, OpenOptions};
use std::io::{ErrorKind, Read, Write};
use std::{fs, io};

// ---- complaints

// A file could not be read or made, and standard error says why.
#[derive(Clone, Copy, Debug)]
pub struct Complained;

// "WHO: cannot read PATH: why", on standard error.
fn complain<A: Allocator>(
    alloc: A,
    to: &mut Output,
    who: &[u8],
    what: &str,
    path: &str,
    why: io::Error,
) -> Complained {
    to.complain(who);
    to.complain(what.as_bytes());
    to.complain(path.as_bytes());
    to.complain(b": ");
    match format!(in alloc; "{why}") {
        Ok(all) => to.complain(words(all.as_str()).as_bytes()),
        Err(_) => to.complain_of(why),
    }
    to.complain(b"\n");
    Complained
}

// The system's words, without the number that the library puts behind them; where memory for them is short, it stays.
fn words(all: &str) -> &str {
    all.split_once(" (os error ")
        .map_or(all, |(words, _)| words)
}

// ---- a file's name

// The longest path that the system takes, and the end that it has there. On the stack: a name needs no memory that could be short.
fn name_room() -> [u8; 4096] {
    [0; 4096]
}

// The system's numbers for a word that is missing and for one that is longer than any path.
const MISSING: i32 = 22;

const TOO_LONG: i32 = 36;

// What a complaint calls a name that is none.
const NAME: &str = "a file's name";

// Word i, which comes to the front of the room. The library takes no other names.
fn name<'a>(rt: &impl Env, i: usize, room: &'a mut [u8]) -> io::Result<&'a str> {
    let n = match rt.arg(i, room) {
        Ok(n) => n,
        Err(FillError::NotPresent) => return Err(io::Error::from_raw_os_error(MISSING)),
        Err(FillError::TooLong) => return Err(io::Error::from_raw_os_error(TOO_LONG)),
    };
    std::str::from_utf8(&room[..n]).map_err(|_| io::Error::new(ErrorKind::InvalidData, "not UTF-8"))
}

// ---- reading

// The bytes from where the file stands to its end, or until the room is full.
fn fill(file: &mut impl Read, room: &mut [u8]) -> io::Result<usize>
    ensures { IfOk result (λ count. count ≤ length room.new) }
{
    let mut at: usize = 0;
    while at < room.len() { // each read brings as many bytes as the system likes; `read_to_end` would want a Vec
        let more = file.read(&mut room[at..])?;
        if more == 0 {
            break;
        }
        at += more;
    }
    Ok(at)
}

// The file of this name, to the front of the room: how many bytes came.
fn read_path(rt: &impl Files, path: &str, room: &mut [u8]) -> io::Result<usize>
    ensures { IfOk result (λ count. count ≤ length room.new) }
{
    let mut file = fs::open(rt, path)?;
    fill(&mut file, room)
}

// The file that word i names, to the front of the room: how many bytes came.
pub fn load<R: Env + Files + Alloc>(
    rt: &R,
    to: &mut Output,
    who: &[u8],
    i: usize,
    room: &mut [u8],
) -> Result<usize, Complained>
    ensures { IfOk result (λ count. count ≤ length room.new) }
{
    let mut bytes = name_room();
    let path = name(rt, i, &mut bytes).map_err(|why| complain(
        rt.alloc(),
        to,
        who,
        ": ",
        NAME,
        why,
    ))?;
    read_path(rt, path, room).map_err(|why| complain(
        rt.alloc(),
        to,
        who,
        ": cannot read ",
        path,
        why,
    ))
}

// ---- writing

// A new file, open for writing: the system refuses where the name is taken, so no test goes before it.
fn make<R: Files>(rt: &R, path: &str) -> io::Result<R::File> {
    OpenOptions::new()
        .write(true)
        .create_new(true)
        .open(rt, path)
}

// All of the bytes, and the system's word that they are on the disk: of a file's closing the library gives no answer.
fn put<F: Write + OpenFile>(file: &mut F, bytes: &[u8]) -> io::Result<()> {
    file.write_all(bytes)?;
    file.sync_all()
}

// A new file with these bytes, under the name that word i gives. One that could not be written whole is taken away again: it is ours,
// since `make` takes no file that exists.
pub fn save<R: Env + Files + Alloc>(
    rt: &R,
    to: &mut Output,
    who: &[u8],
    i: usize,
    bytes: &[u8],
) -> Result<(), Complained> {
    let mut room = name_room();
    let path = name(rt, i, &mut room).map_err(|why| complain(
        rt.alloc(),
        to,
        who,
        ": ",
        NAME,
        why,
    ))?;
    let mut file = make(rt, path).map_err(|why| complain(
        rt.alloc(),
        to,
        who,
        ": cannot make ",
        path,
        why,
    ))?;
    put(&mut file, bytes).map_err(|why| {
        let complained = complain(rt.alloc(), to, who, ": cannot write ", path, why);
        fs::remove_file(rt, path).ok(); // where that fails too, the complaint is still the one to make
        complained
    })
}
