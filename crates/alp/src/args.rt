// The words on the command line.
use crate::say::Failure;
use rules::Kind;
use std::env::{Env, FillError};
use std::str::FromStr;

#[derive(Clone, Copy)]
pub enum Job {
    Write,
    Read,
    Examine,
    Show,
    Help,
}

// The most words that a call of the tool has, and one more.
const MANY: usize = 9;

// How many words there are, from the program's name on; no more than MANY are counted.
pub fn words(rt: &impl Env) -> usize {
    (0..MANY)
        .find(|i| matches!(rt.arg(*i, &mut []), Err(FillError::NotPresent)))
        .unwrap_or(MANY)
}

// Word i. One that does not fit the room is none of ours.
fn word<'a>(rt: &impl Env, i: usize, room: &'a mut [u8]) -> Option<&'a [u8]> {
    let n = rt.arg(i, room).ok()?;
    Some(&room[..n])
}

// What the first word asks for.
pub fn first_word(rt: &impl Env) -> Option<Job> {
    match word(rt, 1, &mut [0; 8])? {
        b"write" => Some(Job::Write),
        b"read" => Some(Job::Read),
        b"examine" => Some(Job::Examine),
        b"show" => Some(Job::Show),
        b"help" => Some(Job::Help),
        _ => None,
    }
}

// The float kind that the second word names.
pub fn kind(rt: &impl Env) -> Result<Kind, Failure> {
    match word(rt, 2, &mut [0; 8]) {
        Some(b"32") => Ok(Kind::Single),
        Some(b"64") => Ok(Kind::Double),
        _ => Err(Failure::Usage("KIND is 32 or 64")),
    }
}

// Whether word i leaves the pairs to the library.
pub fn says_auto(rt: &impl Env, i: usize) -> bool {
    matches!(word(rt, i, &mut [0; 8]), Some(b"auto"))
}

// The number from 0 to 255 that word i spells. Whether it is inside the page's limits is the library's to say.
pub fn byte(rt: &impl Env, i: usize) -> Option<u8> {
    spelled(word(rt, i, &mut [0; 8])?)
}

// The number of 64 bits that word i spells; the largest has 20 digits.
pub fn number(rt: &impl Env, i: usize) -> Option<u64> {
    spelled(word(rt, i, &mut [0; 20])?)
}

// The number that digits alone spell: `parse` would take a sign as well.
fn spelled<T: FromStr<Err: Drop> + Drop>(word: &[u8]) -> Option<T> {
    if !word.iter().all(u8::is_ascii_digit) {
        return None;
    }
    std::str::from_utf8(word).ok()?.parse().ok()
}
