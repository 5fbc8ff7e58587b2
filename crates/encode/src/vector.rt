// One vector, written straight into the part of the output that starts at its offset: the metadata, the packed fields, the exceptions.
ghost use Rattle.std.specs.Prelude.{◌≡◌, ◌+◌, ◌≤◌, length};
ghost use Rattle.digits.specs.Digits.{pack, packed_size};
ghost use Rattle.digits.specs.Lists.{over};
ghost use Rattle.rules.specs.Kind.{meta_bytes};
ghost use Rattle.rules.specs.Coded.{format_of, as_pair};
ghost use Rattle.rules.specs.Vector.{tries, width_of};
ghost use Rattle.rules.specs.Page.{metadata};
ghost use Rattle.encode.specs.Vectors.{Short, fields_in, bytes_of, meta_with};
ghost use Rattle.encode.specs.Seen.{as_seen, seen_of};

use crate::lists::put_exceptions;
use crate::scan::Seen;
use bits::fields::{clear, put};
use bits::word::Word;
use decimal::scale::Scale;
use decimal::signed::field;
use decimal::value::Value;
use decimal::whole::whole;
use rules::Pair;

fn put_meta<V: Value>(pair: Pair, listed: u16, frame: V, width: u8, out: &mut [u8])
    requires { meta_bytes (format_of V.KIND) ≤ length out.old }
    ensures { out.new ≡ over (metadata (format_of V.KIND) (meta_with (as_pair pair) listed (V.as_number frame) width)) out.old }
{
    out[0] = pair.exponent.0;
    out[1] = pair.factor.0;
    listed.store(out, 2);
    frame.store(out, 4);
    out[4 + V::BYTES] = width;
}

// The packed fields of a scanned vector, into a part that they fill: a field is put where all is 0.
fn put_fields<V: Value>(values: &[V], scale: &Scale<V>, seen: Seen, width: usize, out: &mut [u8])
    requires short { Short (length values.now) }
    requires scanned { as_seen seen ≡ seen_of (tries (format_of V.KIND) (as_pair scale.now.pair) (V.as_numbers values.now)) }
    requires fits { width ≡ width_of (fields_in (format_of V.KIND) (as_pair scale.now.pair) (V.as_numbers values.now)) }
    requires room { length out.old ≡ packed_size (length values.now) width }
    ensures { out.new ≡ pack width (fields_in (format_of V.KIND) (as_pair scale.now.pair) (V.as_numbers values.now)) }
{
    clear(out);
    let mut start: usize = 0;
    for value in values {
        let number = whole(*value, scale).unwrap_or(seen.stand_in);
        put(out, start, field(number, seen.smallest));
        start += width;
    }
}

// One vector, of which `seen` is the record, at the front of `out`, the rest as it came: its size.
pub fn write_vector<V: Value>(values: &[V], scale: &Scale<V>, seen: Seen, out: &mut [u8]) -> usize
    requires short { Short (length values.now) }
    requires scanned { as_seen seen ≡ seen_of (tries (format_of V.KIND) (as_pair scale.now.pair) (V.as_numbers values.now)) }
    requires room { length (bytes_of (format_of V.KIND) (as_pair scale.now.pair) (V.as_numbers values.now)) ≤ length out.old }
    ensures size { result ≡ length (bytes_of (format_of V.KIND) (as_pair scale.now.pair) (V.as_numbers values.now)) }
    ensures bytes { out.new ≡ over (bytes_of (format_of V.KIND) (as_pair scale.now.pair) (V.as_numbers values.now)) out.old }
{
    let frame = V::from_signed(seen.smallest);
    let width = seen.width::<V>();
    put_meta(scale.pair, seen.listed as u16, frame, width, out);
    let front = 5 + V::BYTES;
    let at = seen.packed_end::<V>();
    put_fields(values, scale, seen, width as usize, &mut out[front..at]);
    let end = seen.vector_size::<V>();
    put_exceptions(values, scale, seen.listed, &mut out[at..end]);
    end
}
