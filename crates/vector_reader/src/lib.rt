// The reading of one vector by its number: only the header, the vector's own offset, the one behind it and the vector itself are looked at.
// Nothing is written before all rows have passed.
#![tactic(auto)]

ghost use Rattle.std.specs.Prelude.{◌≡◌, ◌^◌, ◌≤◌, ◌<◌};
ghost use Rattle.rules.specs.Kind.{max_s};
ghost use Rattle.rules.specs.Page.{meta_at};
ghost use Rattle.rules.specs.Verdict.{fine, verdict};
ghost use Rattle.rules.specs.ReadVector.{values_in, span_of, number_rows, alone_rows, read_vector_rows};
ghost use Rattle.rules.specs.Calls.{ReadVector};
ghost use Rattle.rules.specs.Coded.{format_of};
ghost use Rattle.checks.specs.Forms.{as_verdict, answered};
ghost use Rattle.vector_reader.specs.Spans.{as_span};

use bits::word::Word;
use checks::check::{Refusal, answer_of, refuses};
use checks::head::{check_head, check_offsets, count_of, s_of, vectors_in};
use checks::sizes::{size_of, vector_size};
use checks::vector::{check_meta, check_payload, meta_at};
use decimal::value::Value;
use rules::{Answer, Kind, Row};

// Where the page says that a vector lies, measured from byte 8: from its own stored offset to the next one, or to the page's end.
#[derive(Clone, Copy)]
pub struct Span {
    pub from: usize,
    pub to: usize,
}

// Rows 1 to 6, 30, 7 for the offsets.
fn check_number(page: &[u8], number: usize) -> Result<(), Refusal>
    ensures { as_verdict result ≡ verdict (number_rows number page.now) }
{
    check_head(page)?;
    if vectors_in(page) <= number {
        return refuses(Row::NoSuchVector, 0, 0);
    }
    check_offsets(page)
}

// How many values the vector holds: every vector is full but perhaps the last.
fn values_in(page: &[u8], number: usize) -> usize
    requires { verdict (number_rows number page.now) ≡ fine }
    ensures { (result ≡ values_in page.now number) × (result ≤ 2 ^ max_s) }
{
    let size = size_of(s_of(page));
    let before = number * size;
    size.min(count_of(page) - before)
}

// What the two offsets say.
fn span_of(page: &[u8], number: usize) -> Span
    requires { verdict (number_rows number page.now) ≡ fine }
    ensures { (as_span result ≡ span_of page.now number) × (result.from < 2 ^ 32) }
{
    let many = vectors_in(page);
    let from = u32::read(page, 8 + 4 * number) as usize;
    let to = if number + 1 < many {
        u32::read(page, 12 + 4 * number) as usize
    } else {
        page.len() - 8
    };
    Span { from, to }
}

// Rows 8, 7 for metadata, 9 to 12, 7 for data, 8 again, 13, 17, of the vector at the front of the part; the offsets end at `low`.
fn check_alone(
    part: &[u8],
    kind: Kind,
    v: usize,
    n: usize,
    low: usize,
    span: Span,
) -> Result<(), Refusal>
    requires { (n ≤ 2 ^ max_s) × (span.from < 2 ^ 32) }
    ensures { as_verdict result ≡ verdict (alone_rows (format_of kind) v n low (as_span span) (meta_at (format_of kind) part.now) part.now) }
{
    let from = span.from;
    if from < low {
        return refuses(Row::Offset, v, 0);
    }
    check_meta(part, kind, v, n)?;
    let m = meta_at(part, kind);
    if from + vector_size(kind, n, m.width, m.listed) != span.to {
        return refuses(Row::Offset, v, 0);
    }
    check_payload(part, kind, v, n)
}

// All rows in their order. A vector that starts past the page's end has no bytes.
fn check_read(page: &[u8], kind: Kind, number: usize, room: usize) -> Result<(), Refusal>
    ensures { as_verdict result ≡ verdict (read_vector_rows (format_of kind) number room page.now) }
{
    check_number(page, number)?;
    let span = span_of(page, number);
    let n = values_in(page, number);
    let low = 4 * vectors_in(page);
    let start = page.len().min(8 + span.from);
    check_alone(&page[start..], kind, number, n, low, span)?;
    if room < n {
        return refuses(Row::OutputTooShort, 0, 0);
    }
    Ok(())
}

// The vector's count of values, once they are read.
fn try_read_vector<V: Value>(page: &[u8], number: usize, out: &mut [V]) -> Result<usize, Refusal>
    ensures { ReadVector (format_of V.KIND) page.now number (V.as_numbers out.old) (answered result) (V.as_numbers out.new) }
{
    check_read(page, V::KIND, number, out.len())?;
    let n = values_in(page, number);
    let part = &page[8 + span_of(page, number).from..];
    let m = meta_at(part, V::KIND);
    decode::vector::read_vector(part, m, &mut out[..n]);
    Ok(n)
}

// The values of one vector of a page as bit patterns: of 64-bit floats into `u64`s, of 32-bit floats into `u32`s, of any bytes, by any
// number and into any output.
pub fn read_vector<V: Value>(page: &[u8], number: usize, out: &mut [V]) -> Answer
    ensures { ReadVector (format_of V.KIND) page.now number (V.as_numbers out.old) result (V.as_numbers out.new) }
{
    answer_of(try_read_vector(page, number, out))
}
