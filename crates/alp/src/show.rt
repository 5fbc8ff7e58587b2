// `alp show KIND PAGE`: the header, then a row for each vector, then what the examiner says.
ghost use Rattle.std.specs.Prelude.{◌≡◌, ◌≤◌, ◌<◌};
ghost use Rattle.rules.specs.Verdict.{fine, verdict};
ghost use Rattle.rules.specs.Read.{page_rows};
ghost use Rattle.rules.specs.Coded.{format_of};

use crate::args::{kind, words};
use crate::examine::examined;
use crate::rooms::{PAGE_FILE, room};
use crate::say::{Failure, WHO};
use checks::head::{count_of, s_of, vectors_in};
use checks::kind::largest_width;
use checks::page::check_page;
use checks::sizes::{size_of, vector_size};
use checks::vector::{Meta, meta_at};
use decimal::value::Value;
use files::load;
use rules::Kind;
use sentences::{Many, Output};
use std::env::Env;
use std::fs::Files;

pub fn run(rt: &(impl Env + Files + Alloc), to: &mut Output) -> Result<(), Failure> {
    if words(rt) != 4 {
        return Err(Failure::Usage("show takes KIND and PAGE"));
    }
    let kind = kind(rt)?;
    show_file(rt, to, kind)
}

#[inline(never)] // so that no other job has this room on its stack
fn show_file(rt: &(impl Env + Files + Alloc), to: &mut Output, kind: Kind) -> Result<(), Failure> {
    let mut room = room::<PAGE_FILE>();
    let n = load(rt, to, WHO, 3, &mut room)?;
    match kind {
        Kind::Single => show_page::<u32>(to, &room[..n]),
        Kind::Double => show_page::<u64>(to, &room[..n]),
    }
}

// No page is longer, and none has more values: so the proof sees that the sums below fit a u64.
const MOST: u64 = 329_737;

// The table, if the layout is sound: then there is one, even where the examiner refuses what the vectors hold.
fn show_page<V: Value>(to: &mut Output, page: &[u8]) -> Result<(), Failure> {
    check_page(page, V::KIND)?;
    show_header(to, V::KIND, page);
    show_vectors::<V>(to, page);
    examined(to, V::KIND, page)
}

// The page in a line, what it comes to per value, and the names of the columns.
fn show_header(to: &mut Output, kind: Kind, page: &[u8])
    requires { verdict (page_rows (format_of kind) page.now) ≡ fine }
{
    let width = largest_width(kind);
    let s = s_of(page);
    let values = count_of(page) as u64;
    let bytes = page.len() as u64;
    let vectors = vectors_in(page) as u64;
    to.show(format_args!(
        "{width}-bit page, version 1, mode 0, integer encoding 0, s {s}: {} in {}\n{}",
        Many(values, "value"),
        Many(vectors, "vector"),
        Many(bytes, "byte")
    ));
    if values == 0 {
        to.show("\n");
        return;
    }
    // in hundredths, rounded to the nearest
    let share = (bytes.min(MOST) * 100 + values.min(MOST) / 2) / values;
    to.show(format_args!(", {}.{:02} per value over all\n", share / 100, share % 100));
    to.show(
        "\nvector   offset  values  exponent  factor  exceptions                 frame  width   bytes\n",
    );
}

fn show_vectors<V: Value>(to: &mut Output, page: &[u8])
    requires { verdict (page_rows (format_of V.KIND) page.now) ≡ fine }
{
    let size = size_of(s_of(page));
    let many = vectors_in(page);
    let mut at = 4 * many;
    let mut left = count_of(page);
    for v in 0..many {
        let n = size.min(left);
        let part = &page[8 + at..];
        let m = meta_at(part, V::KIND);
        let bytes = vector_size(V::KIND, n, m.width, m.listed);
        to.show(format_args!("{v:>6}{at:>9}{n:>8}"));
        let frame = V::from_number(m.frame).signed(); // a word in two's complement
        show_meta(to, m, frame);
        to.show(format_args!("{bytes:>8}\n"));
        at += bytes;
        left -= n;
    }
}

fn show_meta(to: &mut Output, m: Meta, frame: i64) {
    let exponent = m.pair.exponent.0;
    let factor = m.pair.factor.0;
    let listed = m.listed;
    let width = m.width;
    to.show(format_args!("{exponent:>10}{factor:>8}{listed:>12}{frame:>22}{width:>7}"));
}
