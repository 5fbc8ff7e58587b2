// The conditions of rows 21, 22 and 23 at one position: of a whole number as a word, and whether it is listed; and of a position of a
// vector, whose index in the list is `index`, if it is listed.
ghost use Rattle.std.specs.Prelude.{◌≡◌, ℕ, ◌+◌, ◌*◌, ◌<◌, ◌≤◌, true, List, length, drop, ℤ, pos, slice_index};
ghost use Rattle.std.proofs.Common.{to_z};
ghost use Rattle.digits.specs.Digits.{numbers};
ghost use Rattle.rules.specs.Kind.{word as word_of};
ghost use Rattle.rules.specs.Coded.{format_of, as_pair};
ghost use Rattle.rules.specs.Examine.{strays, needless, unfilled};
ghost use Rattle.inspect.specs.Seen.{mark_of, mark_at};
ghost use Rattle.inspect.specs.Looked.{raw_of, whole_at, values_in, EveryOfFields, Within};

use crate::walk::{Fields, Lists, Vector};
use decimal::back::back;
use decimal::scale::Scale;
use decimal::value::Value;
use decimal::whole::whole;

// 21: the position is not listed, and its whole number comes back as an exception or as a value with another whole number.
pub fn strays<V: Value>(word: V, listed: bool, scale: &Scale<V>) -> bool
    ensures { (x : ℕ) → result ≡ strays (format_of V.KIND) (as_pair scale.now.pair) (to_z (word_of (format_of V.KIND)) (V.as_number word)) (mark_of listed x) }
{
    if listed {
        return false;
    }
    match whole(back(word, scale), scale) {
        Some(other) => word.signed() != other,
        None => true,
    }
}

// 22: the position is listed, as the j-th of so many, and its value is no exception.
pub fn needless<V: Value>(
    lists: &[u8],
    many: usize,
    scale: &Scale<V>,
    listed: bool,
    j: usize,
) -> bool
    requires { (many ≤ 1024) × (many * (2 + V.BYTES) ≤ length lists.now) × (listed ≡ true → j < many) }
    ensures { (z : ℤ) → result ≡ needless (format_of V.KIND) (as_pair scale.now.pair) z (mark_of listed (slice_index (numbers V.BYTES many (drop (many * 2) lists.now)) j)) }
{
    if !listed {
        return false;
    }
    let value = V::read(lists, 2 * many + V::BYTES * j);
    whole(value, scale).is_some()
}

// 23: the position is listed, and does not hold the stand-in.
pub fn unfilled<V: Value>(stand_in: i64, word: V, listed: bool) -> bool
    ensures { (x : ℕ) → result ≡ unfilled stand_in (to_z (word_of (format_of V.KIND)) (V.as_number word)) (mark_of listed x) }
{
    listed && word.signed() != stand_in
}

impl<'a, 'b, V: Value<Float = F>, F: Copy> Vector<'a, 'b, V, F> {
    // 21 of a position. Where it is listed, no word is made.
    pub(crate) fn strays(&self, i: usize, index: Option<usize>) -> bool
        requires { i < self.now.fields.count }
        ensures { result ≡ strays (format_of V.KIND) (raw_of self.now).pair (whole_at (format_of V.KIND) (raw_of self.now) i) (mark_at (raw_of self.now).exceptions index) }
    {
        if index.is_some() {
            return false;
        }
        strays(self.fields.word_at(i), false, &self.scale)
    }
}

impl<'a, V: Value> Lists<'a, V> {
    // 22 of a position. The condition asks for no whole number: 0 stands for it.
    pub(crate) fn needless(&self, scale: &Scale<V>, index: Option<usize>) -> bool
        requires { Within self.now.listed index }
        ensures { result ≡ needless (format_of V.KIND) (as_pair scale.now.pair) (pos 0) (mark_at (values_in self.now) index) }
    {
        match index {
            Some(j) => needless(self.bytes, self.listed, scale, true, j),
            None => false,
        }
    }
}

impl<'a, V: Value> Fields<'a, V> {
    // 23 of a position. Where it is not listed, no word is made.
    pub(crate) fn unfilled(&self, stand_in: i64, i: usize, index: Option<usize>) -> bool
        requires { i < self.now.count }
        ensures { EveryOfFields self.now (λ r. (xs : List ℕ) → result ≡ unfilled stand_in (whole_at (format_of V.KIND) r i) (mark_at xs index)) }
    {
        index.is_some() && unfilled(stand_in, self.word_at(i), true)
    }
}
