// Packed fields read: bit 0 is the lowest of the first byte, and field i of width w is the w bits from bit i * w on. They are fetched from
// whole words of the bytes that are lent, never from beyond them.
ghost use Rattle.std.specs.Prelude.{◌≡◌, ◌+◌, ◌*◌, ◌/◌, ◌%◌, ◌^◌, ◌≤◌, ◌<◌, length, take, ltb};
ghost use Rattle.digits.specs.Digits.{number, packed_size, unpack};
ghost use Rattle.bits.specs.Above.{first_above};

use crate::runs::{eight_each, nine_below, nine_each, roomy, zeros};
use crate::word::Word;
use crate::words::{mask_of, nine_from, word_at};

// The `width` bits from bit `start` on, as a number. A window that a word from its first byte on does not hold reaches into a ninth byte.
pub fn window(bytes: &[u8], start: usize, width: usize) -> u64
    requires { (width ≤ 64) × (start + width ≤ 8 * length bytes.now) }
    ensures { result ≡ number bytes.now / 2 ^ start % 2 ^ width }
{
    let skip = start % 8;
    let mask = mask_of(width);
    if skip + width <= 64 {
        return (word_at(bytes, start / 8) >> skip) & mask;
    }
    nine_from(bytes, start) & mask
}

// The fields from number `from` on, each with a test of what is left of the bytes: the last few.
fn last<W: Word>(packed: &[u8], width: usize, from: usize, out: &mut [W])
    requires { (width ≤ 64) × (width ≤ 8 * W.BYTES) × (length out.old < 2 ^ 32) × (length out.old * width ≤ 8 * length packed.now) × (from ≤ length out.old) × (take from (W.as_numbers out.old) ≡ unpack width from packed.now) }
    ensures { W.as_numbers out.new ≡ unpack width (length out.old) packed.now }
{
    let mut start = width * from;
    for place in out[from..].iter_mut() {
        *place = W::from_number(window(packed, start, width));
        start += width;
    }
}

// As many fields as `out` has places: the caller lends exactly those. They are fewer than 2 ^ 32, so that a usize counts their bits.
pub fn unpack<W: Word>(packed: &[u8], width: usize, out: &mut [W])
    requires { (width ≤ 64) × (width ≤ 8 * W.BYTES) × (length out.old < 2 ^ 32) × (length out.old * width ≤ 8 * length packed.now) }
    ensures { W.as_numbers out.new ≡ unpack width (length out.old) packed.now }
{
    if width == 0 {
        zeros(out);
        return;
    }
    if width <= 57 {
        let ready = roomy(out.len(), width, 8);
        eight_each(packed, width, &mut out[0..ready]);
        last(packed, width, ready, out);
        return;
    }
    let ready = roomy(out.len(), width, 9);
    nine_each(packed, width, &mut out[0..ready]);
    last(packed, width, ready, out);
}

// The number of the first field above `most`, or how many there are if none is. Where no field of this width can be, none is looked at.
pub fn first_above(packed: &[u8], width: usize, count: usize, most: u64) -> usize
    requires { (width ≤ 64) × (count < 2 ^ 32) × (count * width ≤ 8 * length packed.now) }
    ensures { result ≡ first_above most (unpack width count packed.now) }
{
    if mask_of(width) <= most {
        return count;
    }
    let ready = roomy(count, width, 9);
    let first = nine_below(packed, width, ready, most);
    let mut start = width * first;
    for i in first..count {
        if most < window(packed, start, width) {
            return i;
        }
        start += width;
    }
    count
}

// Whether the unused bits, those of the last byte behind `count` fields, are 0.
pub fn unused_clear(packed: &[u8], width: usize, count: usize) -> bool
    requires { (width ≤ 64) × (count < 2 ^ 32) × (length packed.now ≡ packed_size count width) }
    ensures { result ≡ ltb (number packed.now) (2 ^ (count * width)) }
{
    let used = count * width;
    window(packed, used, 8 * packed.len() - used) == 0
}
