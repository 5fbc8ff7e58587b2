// The page, vector after vector, into an output that has room for it.
ghost use Rattle.std.specs.Prelude.{◌≡◌, ◌+◌, ◌^◌, ◌≤◌, ◌<◌, length};
ghost use Rattle.digits.specs.Digits.{le};
ghost use Rattle.digits.specs.Lists.{over, put_at};
ghost use Rattle.rules.specs.Coded.{format_of, as_pair};
ghost use Rattle.rules.specs.Vector.{tries};
ghost use Rattle.rules.specs.Page.{header, page_of};
ghost use Rattle.rules.specs.Write.{pairs_of};
ghost use Rattle.encode.specs.Vectors.{Short, bytes_of};
ghost use Rattle.encode.specs.Seen.{as_seen, seen_of};
ghost use Rattle.writer.specs.Settled.{Ready};
ghost use Rattle.writer.specs.Recorded.{Recorded};

use crate::refusals::pair_of;
use bits::word::Word;
use checks::sizes::{size_of, vectors_of};
use decimal::scale::{Scale, scale_of};
use decimal::value::Value;
use encode::records::Records;
use encode::scan::Seen;
use encode::vector::write_vector;

// Version 1, mode 0, integer encoding 0, s, and the count of values.
fn put_header(s: u8, n: u32, out: &mut [u8])
    requires { 8 ≤ length out.old }
    ensures { out.new ≡ over (header s n) out.old }
{
    out[0] = 1;
    out[1] = 0;
    out[2] = 0;
    out[3] = s;
    n.store(out, 4);
}

// One vector at its offset, which is measured from byte 8, and the offset itself at byte `entry`: the vector's size.
fn put_vector<V: Value>(
    values: &[V],
    scale: &Scale<V>,
    seen: Seen,
    entry: usize,
    offset: usize,
    out: &mut [u8],
) -> usize
    requires short { Short (length values.now) }
    requires scanned { as_seen seen ≡ seen_of (tries (format_of V.KIND) (as_pair scale.now.pair) (V.as_numbers values.now)) }
    requires counted { 8 + offset < 2 ^ 32 }
    requires listed { entry + 4 ≤ length out.old }
    requires room { 8 + offset + length (bytes_of (format_of V.KIND) (as_pair scale.now.pair) (V.as_numbers values.now)) ≤ length out.old }
    ensures size { result ≡ length (bytes_of (format_of V.KIND) (as_pair scale.now.pair) (V.as_numbers values.now)) }
    ensures bytes { out.new ≡ put_at (8 + offset) (bytes_of (format_of V.KIND) (as_pair scale.now.pair) (V.as_numbers values.now)) (put_at entry (le 4 offset) out.old) }
{
    let from = 8 + offset;
    (offset as u32).store(out, entry); // measured from byte 8
    write_vector(values, scale, seen, &mut out[from..])
}

// The page at the front of `out`: its length. Each next offset is the previous one plus the size of the vector written there.
pub fn write_page<V: Value>(
    values: &[V],
    s: u8,
    pairs: &[u8],
    records: Records,
    out: &mut [u8],
) -> usize
    requires ready { Ready (format_of V.KIND) s pairs.now (V.as_numbers values.now) out.old }
    requires kept { Recorded (format_of V.KIND) s pairs.now (V.as_numbers values.now) records.of }
    ensures size { result ≡ length (page_of (format_of V.KIND) s (pairs_of pairs.now) (V.as_numbers values.now)) }
    ensures bytes { out.new ≡ over (page_of (format_of V.KIND) s (pairs_of pairs.now) (V.as_numbers values.now)) out.old }
{
    let n = values.len();
    let size = size_of(usize::from(s));
    let count = vectors_of(n, size);
    put_header(s, n as u32, out);
    let mut offset = 4 * count;
    for (i, part) in values.chunks(size).enumerate() {
        let scale = scale_of(pair_of(pairs, i));
        let seen = records.at(i, part, &scale);
        offset += put_vector(part, &scale, seen, 8 + 4 * i, offset, out);
    }
    8 + offset
}
