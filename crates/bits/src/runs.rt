// Fields one after the other where whole words are there: the room is worked out once and the mask made once, so that each field is one
// load, a shift and an `&`. Fields of width 0 have no bytes at all.
ghost use Rattle.std.specs.Prelude.{◌≡◌, ℕ, ◌*◌, ◌^◌, ◌≤◌, ◌<◌, List, length, replicate};
ghost use Rattle.digits.specs.Digits.{packed_size, unpack};
ghost use Rattle.bits.specs.Above.{NoneAbove};
ghost use Rattle.bits.specs.Fetched.{MayFetch, Fetches};
ghost use Rattle.bits.specs.Room.{Room};

use crate::word::Word;
use crate::words::{eight_from, mask_of, nine_from};

// How many of `count` fields, from the first on, have `reach` bytes from their first byte on inside the packed part.
pub fn roomy(count: usize, width: usize, reach: usize) -> usize
    requires { (0 < width) × (width ≤ 64) × (count < 2 ^ 32) }
    ensures { (result ≤ count) × Room reach width result (packed_size count width) }
{
    let size = (count * width + 7) / 8;
    if size < reach {
        return 0;
    }
    let most = (8 * (size - reach) + 7) / width + 1;
    count.min(most)
}

// Fields one after the other: `from` is asked for the bits from a field's first on, of which the mask keeps the field.
fn each<W: Word, F: Fn(usize) -> u64>(width: usize, out: &mut [W], from: F)
    requires { (width ≤ 64) × (width ≤ 8 * W.BYTES) × (length out.old < 2 ^ 32) × MayFetch width (length out.old) (F.pre from) }
    ensures { (bytes : List ℕ) → Fetches width (length out.old) bytes (F.post from) → W.as_numbers out.new ≡ unpack width (length out.old) bytes }
{
    let mask = mask_of(width);
    let mut start: usize = 0;
    for place in out.iter_mut() {
        *place = W::from_number(from(start) & mask);
        start += width;
    }
}

// Fields of up to 57 bits, each from 8 bytes.
pub fn eight_each<W: Word>(packed: &[u8], width: usize, out: &mut [W])
    requires { (width ≤ 57) × (width ≤ 8 * W.BYTES) × (length out.old < 2 ^ 32) × Room 8 width (length out.old) (length packed.now) }
    ensures { W.as_numbers out.new ≡ unpack width (length out.old) packed.now }
{
    each(width, out, |start| eight_from(packed, start));
}

// Fields of any width, each from 9 bytes.
pub fn nine_each<W: Word>(packed: &[u8], width: usize, out: &mut [W])
    requires { (width ≤ 64) × (width ≤ 8 * W.BYTES) × (length out.old < 2 ^ 32) × Room 9 width (length out.old) (length packed.now) }
    ensures { W.as_numbers out.new ≡ unpack width (length out.old) packed.now }
{
    each(width, out, |start| nine_from(packed, start));
}

// How many of the fields, from the first on, are surely not above `most`: each from 9 bytes, up to the first that is above.
pub fn nine_below(packed: &[u8], width: usize, ready: usize, most: u64) -> usize
    requires { (width ≤ 64) × (ready < 2 ^ 32) × Room 9 width ready (length packed.now) }
    ensures { (result ≤ ready) × ((n : ℕ) → ready ≤ n → NoneAbove width n packed.now most result) }
{
    let mask = mask_of(width);
    let mut start: usize = 0;
    for i in 0..ready {
        if most < nine_from(packed, start) & mask {
            return i;
        }
        start += width;
    }
    ready
}

// Every place becomes 0. Not `fill`, which asks that a clone can't fail; `Copy` doesn't say so.
pub fn zeros<W: Word>(out: &mut [W])
    ensures { W.as_numbers out.new ≡ replicate (length out.old) 0 }
{
    let zero = W::from_number(0);
    for place in out.iter_mut() {
        *place = zero;
    }
}
