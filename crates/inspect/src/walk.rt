// A vector, its packed fields and its lists, and a walk over its positions: what stands at a position, and its index in the list, if it is
// listed. A walk holds the index of the list's next position, which rises; so it never looks back.
ghost use Rattle.std.specs.Prelude.{◌≡◌, ◌+◌, ◌*◌, ◌/◌, ◌%◌, ◌^◌, ◌<◌, ◌≤◌, ⊤, length};
ghost use Rattle.digits.specs.Digits.{number, numbers};
ghost use Rattle.rules.specs.Kind.{word_bits};
ghost use Rattle.rules.specs.Coded.{format_of, number_of};
ghost use Rattle.inspect.specs.Seen.{FieldsFit, ListsFit, is_next, behind, fields-fit-once, lists-fit-once};

use bits::windows::window;
use bits::word::Word;
use checks::check::{Refusal, refuses};
use decimal::scale::Scale;
use decimal::value::Value;
use rules::Row;
use std::alloc::AllocError;
use std::marker::PhantomData;

// How many values a vector has, its width and frame, and its packed fields. Their layout has been checked.
pub struct Fields<'a, V: Value> {
    pub count: usize,
    pub width: usize,
    pub frame: V,
    pub packed: &'a [u8],
    pub ghost laid: { FieldsFit (format_of V.KIND) count (V.as_number frame) width packed.now } by { fields-fit-once _ _ _ _ _ },
}

// How many values a vector has and how many exceptions, and its lists: the exceptions' positions, then their values. Their layout has been
// checked.
pub struct Lists<'a, V: Value> {
    pub count: usize,
    pub listed: usize,
    pub bytes: &'a [u8],
    pub kind: PhantomData<V>,
    pub ghost laid: { ListsFit (format_of V.KIND) count listed bytes.now } by { lists-fit-once _ _ _ _ },
}

// A vector's own number, its two parts, and its pair with the powers.
pub struct Vector<'a, 'b, V: Value<Float = F>, F: Copy = <V as Value>::Float> {
    pub number: usize,
    pub fields: Fields<'a, V>,
    pub lists: Lists<'b, V>,
    pub scale: Scale<V, F>,
    pub ghost one_count: { fields.count ≡ lists.count },
}

// A copy is made part by part: of a struct that holds a value of a type parameter, the borrow checker takes no whole one from behind a
// reference.
impl<'a, V: Value> Copy for Fields<'a, V> {}

impl<'a, V: Value> Clone for Fields<'a, V> {
    ghost is_clone = { λ x y. y ≡ x };

    ghost is_infallible = { λ _. ⊤ };

    fn clone(&self) -> Result<Fields<'a, V>, AllocError> {
        Ok(Fields {
            count: self.count,
            width: self.width,
            frame: self.frame,
            packed: self.packed,
        })
    }
}

impl<'a, V: Value> Copy for Lists<'a, V> {}

impl<'a, V: Value> Clone for Lists<'a, V> {
    ghost is_clone = { λ x y. y ≡ x };

    ghost is_infallible = { λ _. ⊤ };

    fn clone(&self) -> Result<Lists<'a, V>, AllocError> {
        Ok(Lists {
            count: self.count,
            listed: self.listed,
            bytes: self.bytes,
            kind: PhantomData,
        })
    }
}

impl<'a, 'b, V: Value<Float = F>, F: Copy> Copy for Vector<'a, 'b, V, F> {}

impl<'a, 'b, V: Value<Float = F>, F: Copy> Clone for Vector<'a, 'b, V, F> {
    ghost is_clone = { λ x y. y ≡ x };

    ghost is_infallible = { λ _. ⊤ };

    fn clone(&self) -> Result<Vector<'a, 'b, V, F>, AllocError> {
        Ok(Vector {
            number: self.number,
            fields: self.fields.clone()?,
            lists: self.lists.clone()?,
            scale: self.scale.clone()?,
        })
    }
}

// Whether i is the position at index j of the list.
pub fn is_next(lists: &[u8], listed: usize, i: usize, j: usize) -> bool
    requires { listed * 2 ≤ length lists.now }
    ensures { result ≡ is_next (numbers 2 listed lists.now) i j }
{
    j < listed && usize::from(u16::read(lists, 2 * j)) == i
}

// The index of the list's next position, behind one that is listed or is not.
pub fn next_index(listed: bool, j: usize) -> usize
    requires { j < 2 ^ 32 }
    ensures { result ≡ behind listed j }
{
    if listed { j + 1 } else { j }
}

// The whole number whose field starts at this bit, as a word: row 17 has passed, so the words may be added modulo 2^W.
pub fn word_at<V: Value>(packed: &[u8], start: usize, width: usize, frame: V) -> V
    requires { (width ≤ 8 * V.BYTES) × (start + width ≤ 8 * length packed.now) }
    ensures { V.as_number result ≡ (V.as_number frame + number packed.now / 2 ^ start % 2 ^ width) % 2 ^ word_bits (format_of V.KIND) }
{
    let field = V::from_number(window(packed, start, width));
    frame.wrapping_sum(field)
}

impl<'a, V: Value> Fields<'a, V> {
    ghost use Rattle.std.specs.Prelude.{slice_index};
    ghost use Rattle.std.proofs.Common.{to_z};
    ghost use Rattle.rules.specs.Kind.{word};
    ghost use Rattle.rules.specs.Vector.{fields};
    ghost use Rattle.inspect.specs.Looked.{whole_at, EveryOfFields};

    // The field of a position.
    pub(crate) fn field_at(&self, i: usize) -> u64
        requires { i < self.now.count }
        ensures { EveryOfFields self.now (λ r. result ≡ slice_index (fields r) i) }
    {
        window(self.packed, self.width * i, self.width)
    }

    // The whole number at a position, as a word.
    pub(crate) fn word_at(&self, i: usize) -> V
        requires { i < self.now.count }
        ensures { EveryOfFields self.now (λ r. to_z (word (format_of V.KIND)) (V.as_number result) ≡ whole_at (format_of V.KIND) r i) }
    {
        word_at(self.packed, self.width * i, self.width, self.frame)
    }
}

impl<'a, V: Value> Lists<'a, V> {
    ghost use Rattle.std.specs.Prelude.{ℤ, ℕ, Bool};
    ghost use Rattle.std.proofs.Math.Option.{Option};
    ghost use Rattle.rules.specs.Verdict.{verdict};
    ghost use Rattle.checks.specs.Forms.{as_verdict};
    ghost use Rattle.inspect.specs.Seen.{listed_at, position_rows};
    ghost use Rattle.inspect.specs.Looked.{EveryOfLists, MayAsk, Finds};

    // The index in the list of position i, if it is listed, where j positions of the list are behind it.
    pub(crate) fn listed_at(&self, i: usize, j: usize) -> Option<usize>
        ensures { result ≡ listed_at (numbers 2 self.now.listed self.now.bytes.now) i j }
    {
        is_next(self.bytes, self.listed, i, j).then_some(j)
    }

    // The row refuses vector `number` at the first position that is at fault. `at_fault` is asked of a position, and its index in the list,
    // if it is listed.
    pub(crate) fn check_each<F: Fn(usize, Option<usize>) -> bool>(
        &self,
        number: usize,
        row: Row,
        at_fault: F,
    ) -> Result<(), Refusal>
        requires { MayAsk self.now (F.pre at_fault) }
        ensures { EveryOfLists self.now (λ r. (condition : ℤ → Option ℕ → Bool) → Finds (format_of V.KIND) r self.now.listed (F.post at_fault) condition → as_verdict result ≡ verdict (position_rows (format_of V.KIND) (number_of row) number condition r)) }
    {
        let mut j: usize = 0;
        for i in 0..self.count {
            let index = self.listed_at(i, j);
            if at_fault(i, index) {
                return refuses(row, number, i);
            }
            j = next_index(index.is_some(), j);
        }
        Ok(())
    }
}
