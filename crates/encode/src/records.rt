// The records of a page's first vectors, kept from measuring, so that writing need not scan those vectors again.
ghost use Rattle.std.specs.Prelude.{◌≡◌, length, set};
ghost use Rattle.rules.specs.Coded.{format_of, as_pair};
ghost use Rattle.rules.specs.Vector.{tries};
ghost use Rattle.encode.specs.Vectors.{Short};
ghost use Rattle.encode.specs.Seen.{as_seen, seen_of};
ghost use Rattle.encode.specs.Records.{RecordedAt};

use crate::scan::Seen;
use decimal::scale::Scale;
use decimal::value::Value;

// As many as a full column has of 1,024 values each. In shorter vectors it has more: those behind are scanned twice.
const KEPT: usize = 16;

// An array and no `Vec`, since the library takes no memory.
#[derive(Clone, Copy)]
pub struct Records {
    pub of: [Seen; KEPT],
}

impl Records {
    pub fn new() -> Records {
        Records {
            of: [Seen::new(); KEPT],
        }
    }

    // With the record of vector i, if there is a place for it.
    pub fn with(self, i: usize, seen: Seen) -> Records
        ensures { result.of ≡ set self.of i seen }
    {
        let mut of = self.of;
        if i < KEPT {
            of[i] = seen;
        }
        Records { of }
    }

    // The record of vector i, which has these values: as it was kept, or from a scan.
    pub fn at<V: Value>(self, i: usize, values: &[V], scale: &Scale<V>) -> Seen
        requires { Short (length values.now) × RecordedAt as_seen self.of i (seen_of (tries (format_of V.KIND) (as_pair scale.now.pair) (V.as_numbers values.now))) }
        ensures { as_seen result ≡ seen_of (tries (format_of V.KIND) (as_pair scale.now.pair) (V.as_numbers values.now)) }
    {
        if i < KEPT {
            return self.of[i];
        }
        Seen::of(values, scale)
    }
}
