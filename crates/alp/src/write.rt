// `alp write KIND S E F COLUMN PAGE`, and with `auto` in place of E and F the page with the pairs that the library chooses.
ghost use Rattle.std.specs.Prelude.{◌*◌, ◌≤◌, IfOk, length};

use crate::args::{byte, kind, says_auto, words};
use crate::choose::{choose_pairs, show_chosen};
use crate::rooms::{
    DOUBLE_COLUMN, DOUBLE_PAGE, PAIRS, SINGLE_COLUMN, SINGLE_PAGE, VALUES, doubles, room, singles,
};
use crate::say::{Failure, WHO, place};
use checks::sizes::{MAX_S, MAX_VALUES, size_of, vectors_of};
use decimal::value::Value;
use files::{load, save};
use rules::{Exponent, Factor, Kind, Pair};
use sentences::{Output, done};
use std::env::Env;
use std::fs::Files;
use writer::{measure, write};

// One exponent and factor is given for every vector of the column, or the library chooses for each. The last two are the words that name
// the files.
#[derive(Clone, Copy)]
struct Settings {
    s: u8,
    given: Option<Pair>,
    column: usize,
    page: usize,
}

pub fn run(rt: &(impl Env + Files + Alloc), to: &mut Output) -> Result<(), Failure> {
    let chosen = match words(rt) {
        8 => false,
        7 if says_auto(rt, 4) => true,
        _ => {
            return Err(Failure::Usage("write takes KIND, S, E and F or auto, COLUMN and PAGE"));
        }
    };
    let kind = kind(rt)?;
    let settings = settings_in(rt, chosen)?;
    match kind {
        Kind::Single => write_singles(rt, to, settings),
        Kind::Double => write_doubles(rt, to, settings),
    }
}

// What the words say of the page. `chosen`: the library chooses the pairs.
fn settings_in(rt: &impl Env, chosen: bool) -> Result<Settings, Failure> {
    let s = byte(rt, 3).ok_or(Failure::Usage("S is a number from 3 to 10"))?;
    if chosen {
        return Ok(Settings {
            s,
            given: None,
            column: 5,
            page: 6,
        });
    }
    let exponent = byte(rt, 4).ok_or(Failure::Usage(
        "E is a number, at most 10 or 18 by the kind",
    ))?;
    let factor = byte(rt, 5).ok_or(Failure::Usage("F is a number, at most E"))?;
    Ok(Settings {
        s,
        given: Some(Pair {
            exponent: Exponent(exponent),
            factor: Factor(factor),
        }),
        column: 6,
        page: 7,
    })
}

// By the rooms of each kind. They are not inlined, so that no other job has these rooms on its stack.
#[inline(never)]
fn write_singles(
    rt: &(impl Env + Files + Alloc),
    to: &mut Output,
    settings: Settings,
) -> Result<(), Failure> {
    let mut values = singles();
    let mut column = room::<SINGLE_COLUMN>();
    let mut page = room::<SINGLE_PAGE>();
    write_column(rt, to, settings, &mut column, &mut values, &mut page)
}

#[inline(never)]
fn write_doubles(
    rt: &(impl Env + Files + Alloc),
    to: &mut Output,
    settings: Settings,
) -> Result<(), Failure> {
    let mut values = doubles();
    let mut column = room::<DOUBLE_COLUMN>();
    let mut page = room::<DOUBLE_PAGE>();
    write_column(rt, to, settings, &mut column, &mut values, &mut page)
}

// From the column file to the page file.
fn write_column<V: Value>(
    rt: &(impl Env + Files + Alloc),
    to: &mut Output,
    settings: Settings,
    column: &mut [u8],
    values: &mut [V],
    page: &mut [u8],
) -> Result<(), Failure>
    requires { (V.BYTES * 16385 ≤ length column.old) × (16385 ≤ length values.old) }
{
    let n = load_values(rt, to, settings.column, column, values)?;
    let mut pairs = room::<PAIRS>();
    write_values(rt, to, settings, &values[..n], &mut pairs, page)
}

// How many values came.
fn load_values<V: Value>(
    rt: &(impl Env + Files + Alloc),
    to: &mut Output,
    word: usize,
    column: &mut [u8],
    values: &mut [V],
) -> Result<usize, Failure>
    requires { (V.BYTES * 16385 ≤ length column.old) × (16385 ≤ length values.old) }
    ensures { IfOk result (λ n. n ≤ length values.new) }
{
    let bytes = V::BYTES;
    let n = load(rt, to, WHO, word, &mut column[..bytes * VALUES])?;
    if n % bytes != 0 {
        return Err(Failure::UnevenColumn(V::KIND));
    }
    let many = n / bytes;
    columns::words(&column[..n], &mut values[..many]);
    Ok(many)
}

// Two bytes a vector, and no more vectors than values. Where the library refuses s or the count, it does so before it looks at the pairs.
fn pairs_length(s: u8, n: usize) -> usize
    ensures { result ≤ 32768 }
{
    let s = usize::from(s);
    if MAX_S < s || MAX_VALUES < n {
        return 0;
    }
    2 * vectors_of(n, size_of(s))
}

// Each vector's pair: the given one, or the one that the library chooses.
fn set_pairs<V: Value>(settings: Settings, values: &[V], pairs: &mut [u8]) {
    match settings.given {
        None => choose_pairs(values, settings.s, pairs),
        Some(pair) => {
            let (pairs, _) = pairs.as_chunks_mut::<2>();
            pairs.fill([pair.exponent.0, pair.factor.0]);
        }
    }
}

// Measuring gives the page's exact size, and no page is longer than the room (rooms.rt), so `min` cuts nothing off and the writer fills
// what it is lent: that is the page, to its last byte.
fn write_values<V: Value>(
    rt: &(impl Env + Files + Alloc),
    to: &mut Output,
    settings: Settings,
    values: &[V],
    pairs: &mut [u8],
    page: &mut [u8],
) -> Result<(), Failure>
    requires { 32768 ≤ length pairs.old }
{
    let pairs = &mut pairs[..pairs_length(settings.s, values.len())];
    set_pairs(settings, values, pairs);
    let n = place(measure(values, settings.s, pairs))?.min(page.len());
    let page = &mut page[..n];
    let answer = write(values, settings.s, pairs, page);
    place(answer)?;
    save(rt, to, WHO, settings.page, page)?;
    if settings.given.is_none() {
        show_chosen(to, pairs);
    }
    done(to, answer, b"wrote a page of ", b"byte");
    Ok(())
}
