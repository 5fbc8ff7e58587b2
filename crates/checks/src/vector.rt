// One vector at the front of a part of a page: its metadata, and rows 8, 7 for metadata, 9 to 12, 7 for data, 13, 17.
ghost use Rattle.std.specs.Prelude.{◌≡◌, ℕ, ◌+◌, ◌*◌, ◌^◌, ◌≤◌, ◌<◌, length, take, drop, ltb, pos, ◌+ℤ◌};
ghost use Rattle.std.proofs.Common.{to_z};
ghost use Rattle.digits.specs.Digits.{number, numbers};
ghost use Rattle.rules.specs.Kind.{max_s, meta_bytes, word, word_bytes, word_bits};
ghost use Rattle.rules.specs.Vector.{wholes};
ghost use Rattle.rules.specs.Page.{meta_at};
ghost use Rattle.rules.specs.Verdict.{verdict, row, in_vector, ◌isnt◌};
ghost use Rattle.rules.specs.Read.{meta_rows, positions_rows, out_of_range, sums_rows, payload_rows, here, vector_rows};
ghost use Rattle.rules.proofs.Reading.{MetaPassed};
ghost use Rattle.rules.specs.Coded.{format_of};
ghost use Rattle.checks.specs.Forms.{as_verdict, as_cursor, FoundMeta, pair_rows, raw_at, no_position};

use crate::check::{Refusal, refuses};
use crate::kind::{half_range, largest_exponent, largest_width, meta_bytes, value_bytes};
use crate::sizes::{packed_size, vector_size};
use bits::windows::first_above;
use bits::word::Word;
use rules::{Exponent, Factor, Kind, Pair, Row};

// A vector's metadata.
#[derive(Clone, Copy)]
pub struct Meta {
    pub pair: Pair,
    pub listed: usize,
    pub frame: u64,
    pub width: usize,
}

// How far the layout has come: the next vector's number, its offset, and how many values are left for it and those behind it.
#[derive(Clone, Copy)]
pub struct Cursor {
    pub vector: usize,
    pub offset: usize,
    pub left: usize,
}

// The frame, a word of the kind.
fn frame_at(part: &[u8], kind: Kind) -> u64
    requires { meta_bytes (format_of kind) ≤ length part.now }
    ensures { (result ≡ number (take (word_bytes (format_of kind)) (drop 4 part.now))) × (result < 2 ^ word_bits (format_of kind)) }
{
    match kind {
        Kind::Single => u32::read(part, 4).number(),
        Kind::Double => u64::read(part, 4),
    }
}

// The metadata at the front of the part.
pub fn meta_at(part: &[u8], kind: Kind) -> Meta
    requires { meta_bytes (format_of kind) ≤ length part.now }
    ensures { FoundMeta (format_of kind) part.now result }
{
    let word = value_bytes(kind);
    let frame = frame_at(part, kind);
    let listed = usize::from(u16::read(part, 2));
    let width = usize::from(part[4 + word]);
    Meta {
        pair: Pair {
            exponent: Exponent(part[0]),
            factor: Factor(part[1]),
        },
        listed,
        frame,
        width,
    }
}

// Rows 9 and 10, of the pair of vector v.
pub fn check_pair(kind: Kind, v: usize, pair: Pair) -> Result<(), Refusal>
    ensures { as_verdict result ≡ verdict (pair_rows (format_of kind) v pair) }
{
    let e = pair.exponent.0;
    let f = pair.factor.0;
    let top = largest_exponent(kind);
    if top < e {
        return refuses(Row::Exponent, v, 0);
    }
    if e < f {
        return refuses(Row::Factor, v, 0);
    }
    Ok(())
}

// Rows 7 for metadata, 9 to 12, 7 for data, of vector v, which has n values.
pub fn check_meta(part: &[u8], kind: Kind, v: usize, n: usize) -> Result<(), Refusal>
    requires { n ≤ 2 ^ max_s }
    ensures { as_verdict result ≡ verdict (meta_rows (format_of kind) v n (meta_at (format_of kind) part.now) part.now) }
{
    let front = meta_bytes(kind);
    if part.len() < front {
        return refuses(Row::PastEnd, v, 0);
    }
    let m = meta_at(part, kind);
    check_pair(kind, v, m.pair)?;
    let listed = m.listed;
    if n < listed {
        return refuses(Row::TooManyExceptions, v, 0);
    }
    let width = m.width;
    let widest = largest_width(kind);
    if widest < width {
        return refuses(Row::Width, v, 0);
    }
    let size = vector_size(kind, n, width, listed);
    if part.len() < size {
        return refuses(Row::PastEnd, v, 0);
    }
    Ok(())
}

// Row 13 of the positions from byte `at` on.
fn check_positions(part: &[u8], at: usize, listed: usize, v: usize, n: usize) -> Result<(), Refusal>
    requires { at + 2 * listed ≤ length part.now }
    ensures { as_verdict result ≡ verdict (positions_rows v n no_position (numbers 2 listed (drop at part.now))) }
{
    let mut low: usize = 0;
    for i in 0..listed {
        let p = usize::from(u16::read(part, at + 2 * i));
        if n <= p || p < low {
            return refuses(Row::Position, v, i);
        }
        low = p + 1;
    }
    Ok(())
}

// Row 13 of vector v, whose bytes are all there.
fn check_list(part: &[u8], kind: Kind, v: usize, n: usize) -> Result<(), Refusal>
    requires { (n ≤ 2 ^ max_s) × MetaPassed (format_of kind) n (meta_at (format_of kind) part.now) part.now }
    ensures { as_verdict result ≡ verdict (positions_rows v n no_position (raw_at (format_of kind) n part.now).positions) }
{
    let m = meta_at(part, kind);
    let listed = m.listed;
    let front = meta_bytes(kind);
    let packed = packed_size(n, m.width);
    check_positions(part, front + packed, listed, v, n)
}

// How far above the frame the kind's signed range goes: the largest field with which the sum stays inside.
fn headroom(kind: Kind, frame: u64) -> u64
    requires { frame < 2 ^ word_bits (format_of kind) }
    ensures { (d : ℕ) → out_of_range (format_of kind) (to_z (word (format_of kind)) frame +ℤ pos d) ≡ ltb result d }
{
    let half = half_range(kind);
    if frame < half {
        (half - 1) - frame
    } else {
        (half - 1) - (frame - half) + half
    }
}

// Row 17 of vector v, whose bytes are all there.
fn check_sums(part: &[u8], kind: Kind, v: usize, n: usize) -> Result<(), Refusal>
    requires { (n ≤ 2 ^ max_s) × MetaPassed (format_of kind) n (meta_at (format_of kind) part.now) part.now }
    ensures { as_verdict result ≡ verdict (sums_rows (format_of kind) v 0 (wholes (format_of kind) (raw_at (format_of kind) n part.now))) }
{
    let m = meta_at(part, kind);
    let width = m.width;
    let front = meta_bytes(kind);
    let behind = front + packed_size(n, width);
    let most = headroom(kind, m.frame);
    let i = first_above(&part[front..behind], width, n, most);
    if i < n {
        return refuses(Row::SumOutOfRange, v, i);
    }
    Ok(())
}

// Rows 13 and 17 of vector v, whose metadata's rows pass.
pub fn check_payload(part: &[u8], kind: Kind, v: usize, n: usize) -> Result<(), Refusal>
    requires { (n ≤ 2 ^ max_s) × MetaPassed (format_of kind) n (meta_at (format_of kind) part.now) part.now }
    ensures { as_verdict result ≡ verdict (payload_rows (format_of kind) v n (meta_at (format_of kind) part.now) part.now) }
{
    let listed = check_list(part, kind, v, n);
    let summed = check_sums(part, kind, v, n);
    listed.and(summed)
}

// Row 8: the offset that the page has for vector v, and the layout's.
fn check_offset(v: usize, offset: usize, laid: usize) -> Result<(), Refusal>
    ensures { as_verdict result ≡ verdict (row 8 (in_vector v) (offset isnt laid)) }
{
    if offset != laid {
        return refuses(Row::Offset, v, 0);
    }
    Ok(())
}

// How many values the vector at the cursor holds: every vector is full but perhaps the last.
pub fn values_here(size: usize, cursor: Cursor) -> usize
    ensures { result ≡ here size (as_cursor cursor) }
{
    size.min(cursor.left)
}

// Rows 8, 7 for metadata, 9 to 12, 7 for data, 13, 17, of the vector at the cursor, for which the page has this offset. The metadata's rows
// can be worked out of any bytes, so row 8 need not be asked first to come first.
pub fn check_vector(
    part: &[u8],
    kind: Kind,
    size: usize,
    cursor: Cursor,
    offset: usize,
) -> Result<(), Refusal>
    requires { size ≤ 2 ^ max_s }
    ensures { as_verdict result ≡ verdict (vector_rows (format_of kind) size (as_cursor cursor) offset (meta_at (format_of kind) part.now) part.now) }
{
    let v = cursor.vector;
    let laid = cursor.offset;
    let n = values_here(size, cursor);
    let placed = check_offset(v, offset, laid);
    let described = check_meta(part, kind, v, n);
    placed.and(described)?;
    check_payload(part, kind, v, n)
}
