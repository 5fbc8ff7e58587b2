// `alp examine KIND PAGE`.
use crate::args::{kind, words};
use crate::rooms::{PAGE_FILE, room};
use crate::say::{Failure, WHO, place};
use examiner::examine;
use files::load;
use rules::Kind;
use sentences::{Output, done};
use std::env::Env;
use std::fs::Files;

pub fn run(rt: &(impl Env + Files + Alloc), to: &mut Output) -> Result<(), Failure> {
    if words(rt) != 4 {
        return Err(Failure::Usage("examine takes KIND and PAGE"));
    }
    let kind = kind(rt)?;
    examine_file(rt, to, kind)
}

#[inline(never)] // so that no other job has this room on its stack
fn examine_file(
    rt: &(impl Env + Files + Alloc),
    to: &mut Output,
    kind: Kind,
) -> Result<(), Failure> {
    let mut room = room::<PAGE_FILE>();
    let n = load(rt, to, WHO, 3, &mut room)?;
    examined(to, kind, &room[..n])
}

// What the examiner says of a page.
pub fn examined(to: &mut Output, kind: Kind, page: &[u8]) -> Result<(), Failure> {
    let answer = match kind {
        Kind::Single => examine::<u32>(page),
        Kind::Double => examine::<u64>(page),
    };
    place(answer)?;
    done(to, answer, b"a page of ", b"value");
    Ok(())
}
