// The record of a vector in progress, kept by value, so that a vector's values may come in pieces; and what it says of the vector's size.
ghost use Rattle.std.specs.Prelude.{◌≡◌, [], ◌∷◌, ◌+◌, ◌*◌, ◌^◌, ◌≤◌, length};
ghost use Rattle.rules.specs.Coded.{format_of, as_pair};
ghost use Rattle.rules.specs.Vector.{tries, the_stand_in};
ghost use Rattle.decimal.specs.Turn.{as_try};
ghost use Rattle.encode.specs.Vectors.{Short};
ghost use Rattle.encode.specs.Seen.{as_seen, nothing, seen_of, see, begun, see_more, Kept, width_seen, packed_end, size_seen};

use decimal::scale::Scale;
use decimal::signed::field;
use decimal::value::Value;
use decimal::whole::whole;

// Counts of values and of exceptions seen; the stand-in, and the smallest and the largest whole number. The list with stand-ins begins with
// the stand-in, so these two start there and pass over the exceptions.
#[derive(Clone, Copy, Default)]
pub struct Seen {
    pub count: usize,
    pub listed: usize,
    pub stand_in: i64,
    pub smallest: i64,
    pub largest: i64,
}

// The whole number of the first value that is no exception, or 0 if all are. A loop that yields it by `break`, as document 01 asks of the form.
pub fn stand_in<V: Value>(values: &[V], scale: &Scale<V>) -> i64
    ensures { result ≡ the_stand_in (tries (format_of V.KIND) (as_pair scale.now.pair) (V.as_numbers values.now)) }
{
    let mut rest = values;
    let stand_in = loop {
        let Some((value, behind)) = rest.split_first() else {
            break 0;
        };
        if let Some(z) = whole(*value, scale) {
            break z; // the first that is no exception
        }
        rest = behind;
    };
    stand_in
}

impl Seen {
    // The record of no values.
    pub fn new() -> Seen
        ensures { as_seen result ≡ nothing }
    {
        Seen::default()
    }

    // The record of a whole vector.
    pub fn of<V: Value>(values: &[V], scale: &Scale<V>) -> Seen
        requires { Short (length values.now) }
        ensures { as_seen result ≡ seen_of (tries (format_of V.KIND) (as_pair scale.now.pair) (V.as_numbers values.now)) }
    {
        Seen::new().with_more(values, scale)
    }

    // The record with a piece more.
    pub fn with_more<V: Value>(self, values: &[V], scale: &Scale<V>) -> Seen
        requires { (self.listed ≤ self.count) × Short (self.count + length values.now) }
        ensures { as_seen result ≡ see_more (as_seen self) (tries (format_of V.KIND) (as_pair scale.now.pair) (V.as_numbers values.now)) }
    {
        let mut seen = self.begun(values, scale);
        for value in values {
            seen = seen.with(whole(*value, scale));
        }
        seen
    }

    // The record before the next values are seen: where only exceptions came so far, the stand-in is theirs.
    fn begun<V: Value>(self, values: &[V], scale: &Scale<V>) -> Seen
        ensures { as_seen result ≡ begun (as_seen self) (the_stand_in (tries (format_of V.KIND) (as_pair scale.now.pair) (V.as_numbers values.now))) }
    {
        if self.listed < self.count {
            return self; // and none is looked for
        }
        self.begun_with(stand_in(values, scale))
    }

    // The same, with the next values' stand-in at hand.
    fn begun_with(self, first: i64) -> Seen
        ensures { as_seen result ≡ begun (as_seen self) first }
    {
        if self.listed < self.count {
            return self;
        }
        Seen {
            stand_in: first,
            smallest: first,
            largest: first,
            ..self
        }
    }

    // The record with one value more: of an exception, the counts alone change.
    fn with(self, turned: Option<i64>) -> Seen
        requires { (self.listed ≤ self.count) × Short self.count }
        ensures { as_seen result ≡ see (as_seen self) (as_try turned) }
    {
        match turned {
            None => Seen {
                count: self.count + 1,
                listed: self.listed + 1,
                ..self
            },
            Some(z) => Seen {
                count: self.count + 1,
                smallest: self.smallest.min(z),
                largest: self.largest.max(z),
                ..self
            },
        }
    }

    // The record with one value more, which may be the first that has a whole number. Who looks at values one by one tries each of them
    // once: a stand-in is not looked for ahead, as it is for a piece.
    pub fn with_next(self, turned: Option<i64>) -> Seen
        requires { (self.listed ≤ self.count) × Short self.count }
        ensures { as_seen result ≡ see_more (as_seen self) (as_try turned ∷ []) }
    {
        // by the value first, and then by the record: the other way about, choosing takes a quarter more instructions for an exception
        match turned {
            None => self.begun_with(0).with(None),
            Some(z) => self.begun_with(z).with(Some(z)),
        }
    }

    // ---- the size of the vector

    // The fewest bits that hold the largest field, a word of the kind.
    pub fn width<V: Value>(self) -> u8
        requires { Kept (format_of V.KIND) (as_seen self) }
        ensures { (result ≡ width_seen (as_seen self)) × (result ≤ 8 * V.BYTES) × (result ≤ 64) }
    {
        let largest = V::from_number(field(self.largest, self.smallest));
        largest.width()
    }

    // Where the packed fields end: behind the metadata, which is a word and 5 bytes.
    pub fn packed_end<V: Value>(self) -> usize
        requires { Kept (format_of V.KIND) (as_seen self) }
        ensures { (result ≡ packed_end (format_of V.KIND) (as_seen self)) × (result ≤ 2 ^ 32) }
    {
        5 + V::BYTES + (self.count * (self.width::<V>() as usize) + 7) / 8
    }

    // Where the vector ends, which is its size: an exception takes 2 bytes and its word.
    pub fn vector_size<V: Value>(self) -> usize
        requires { Kept (format_of V.KIND) (as_seen self) }
        ensures { result ≡ size_seen (format_of V.KIND) (as_seen self) }
    {
        self.packed_end::<V>() + self.listed * (2 + V::BYTES)
    }
}
