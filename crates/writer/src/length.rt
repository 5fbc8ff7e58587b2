// The page's size, from one scan of each vector.
ghost use Rattle.std.specs.Prelude.{◌≡◌};
ghost use Rattle.rules.specs.Coded.{format_of};
ghost use Rattle.rules.specs.Write.{page_size};
ghost use Rattle.writer.specs.Settled.{Settled};
ghost use Rattle.writer.specs.Recorded.{Recorded};

use crate::refusals::pair_of;
use checks::sizes::{size_of, vectors_of};
use decimal::scale::scale_of;
use decimal::value::Value;
use encode::records::Records;
use encode::scan::Seen;

// What it finds: the size, and the records of the first vectors, which then are not scanned again to be written.
#[derive(Clone, Copy)]
pub struct Found {
    pub size: usize,
    pub records: Records,
}

// Header, offsets and vectors.
pub fn measure_page<V: Value>(values: &[V], s: u8, pairs: &[u8]) -> Found
    requires { Settled (format_of V.KIND) s pairs.now (V.as_numbers values.now) }
    ensures size { result.size ≡ page_size (format_of V.KIND) s pairs.now (V.as_numbers values.now) }
    ensures kept { Recorded (format_of V.KIND) s pairs.now (V.as_numbers values.now) result.records.of }
{
    let n = values.len();
    let size = size_of(usize::from(s));
    let count = vectors_of(n, size);
    let mut total = 8 + 4 * count; // header and offsets
    let mut records = Records::new();
    for (i, part) in values.chunks(size).enumerate() {
        let scale = scale_of(pair_of(pairs, i));
        let seen = Seen::of(part, &scale);
        total += seen.vector_size::<V>();
        records = records.with(i, seen);
    }
    Found {
        size: total,
        records,
    }
}
