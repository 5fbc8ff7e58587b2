// Rows 20 to 24 of one vector, each a function of its own. Each takes what it looks at, and what it promises holds whatever the rest is.
ghost use Rattle.std.specs.Prelude.{◌≡◌, ◌*◌, ◌^◌, ◌≤◌, not, ◌||◌, length};
ghost use Rattle.digits.specs.Digits.{number, packed_size};
ghost use Rattle.rules.specs.Kind.{max_s};
ghost use Rattle.rules.specs.Coded.{format_of, as_pair};
ghost use Rattle.rules.specs.Vector.{least, greatest, wholes, fields};
ghost use Rattle.rules.specs.Verdict.{verdict, row, in_vector, ◌below◌};
ghost use Rattle.rules.specs.Examine.{strays, needless, unfilled, frame_off, width_off};
ghost use Rattle.checks.specs.Forms.{as_verdict};
ghost use Rattle.inspect.specs.Seen.{position_rows, stand_in_as};
ghost use Rattle.inspect.specs.Looked.{raw_of, EveryOfFields, EveryOfLists, EveryOfBoth};

use crate::walk::{Fields, Lists, Vector, is_next};
use bits::windows::unused_clear;
use bits::word::Word;
use checks::check::{Refusal, refuses};
use decimal::scale::Scale;
use decimal::value::Value;
use rules::Row;

// 20: an unused packed bit is 1.
pub fn check_unused(packed: &[u8], width: usize, count: usize, v: usize) -> Result<(), Refusal>
    requires { (width ≤ 64) × (count ≤ 2 ^ max_s) × (length packed.now ≡ packed_size count width) }
    ensures { as_verdict result ≡ verdict (row 20 (in_vector v) (not (number packed.now below 2 ^ (count * width)))) }
{
    if !unused_clear(packed, width, count) {
        return refuses(Row::UnusedBit, v, 0);
    }
    Ok(())
}

impl<'a, 'b, V: Value<Float = F>, F: Copy> Vector<'a, 'b, V, F> {
    // 21: an unlisted whole number comes back as a value that is an exception, or that turns into another whole number.
    pub fn check_strays(&self) -> Result<(), Refusal>
        ensures { as_verdict result ≡ verdict (position_rows (format_of V.KIND) 21 self.now.number (strays (format_of V.KIND) (raw_of self.now).pair) (raw_of self.now)) }
    {
        self.lists.check_each(self.number, Row::Unlisted, |i, index| self.strays(i, index))
    }
}

impl<'a, V: Value> Lists<'a, V> {
    // 22: a listed value is no exception.
    pub fn check_needless(&self, scale: &Scale<V>, number: usize) -> Result<(), Refusal>
        ensures { EveryOfLists self.now (λ r. as_verdict result ≡ verdict (position_rows (format_of V.KIND) 22 number (needless (format_of V.KIND) (as_pair scale.now.pair)) r)) }
    {
        self.check_each(number, Row::Listed, |_, index| self.needless(scale, index))
    }
}

// The stand-in: the first unlisted whole number, or 0 if all are listed. Up to it every position is listed: position i, if listed, is
// the list's i-th. A loop that yields it by `break`, as document 01 asks of the form.
pub fn stand_in<V: Value>(fields: &Fields<V>, lists: &Lists<V>) -> i64
    requires { fields.now.count ≡ lists.now.count }
    ensures { EveryOfBoth fields.now lists.now (λ r. result ≡ stand_in_as (format_of V.KIND) r) }
{
    let mut i: usize = 0;
    let stand_in = loop {
        if fields.count <= i {
            break 0;
        }
        if !is_next(lists.bytes, lists.listed, i, i) {
            break fields.word_at(i).signed(); // the first that is not listed
        }
        i += 1;
    };
    stand_in
}

// 23: a listed position doesn't hold the stand-in.
pub fn check_stand_ins<V: Value>(
    fields: &Fields<V>,
    lists: &Lists<V>,
    number: usize,
) -> Result<(), Refusal>
    requires { fields.now.count ≡ lists.now.count }
    ensures { EveryOfBoth fields.now lists.now (λ r. as_verdict result ≡ verdict (position_rows (format_of V.KIND) 23 number (unfilled (stand_in_as (format_of V.KIND) r)) r)) }
{
    let stand_in = stand_in(fields, lists);
    lists.check_each(
        number,
        Row::StandIn,
        |i, index| fields.unfilled(stand_in, i, index),
    )
}

impl<'a, V: Value> Fields<'a, V> {
    // The smallest whole number, or 0 if there is none.
    fn smallest(&self) -> i64
        ensures { EveryOfFields self.now (λ r. result ≡ least (wholes (format_of V.KIND) r)) }
    {
        (0..self.count)
            .map(|i| self.word_at(i).signed())
            .min()
            .unwrap_or(0)
    }

    // The largest field, or 0 if there is none.
    fn largest(&self) -> u64
        ensures { EveryOfFields self.now (λ r. result ≡ greatest (fields r)) }
    {
        (0..self.count).map(|i| self.field_at(i)).max().unwrap_or(0)
    }

    // 24: frame not the smallest, or width not the fewest bits.
    pub fn check_frame(&self, number: usize) -> Result<(), Refusal>
        ensures { EveryOfFields self.now (λ r. as_verdict result ≡ verdict (row 24 (in_vector number) (frame_off (format_of V.KIND) r || width_off r))) }
    {
        if self.frame.signed() != self.smallest() {
            return refuses(Row::FrameOrWidth, number, 0);
        }
        let largest = V::from_number(self.largest());
        if self.width != usize::from(largest.width()) {
            return refuses(Row::FrameOrWidth, number, 0);
        }
        Ok(())
    }
}
