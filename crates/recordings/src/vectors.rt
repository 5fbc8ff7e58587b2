// One vector by its number: of a sound page of three vectors, and of that page with one byte changed or its end cut off. Each line shows the
// answer and then the whole output, so that what was left as it came is seen too.
ghost use Rattle.std.specs.Prelude.{◌≤◌, ◌<◌, ◌&&◌, nat_le, nat_lt, IsTrue};
ghost use Rattle.std.specs.List.{list_all};

use crate::pages::both;
use crate::show::{Recorder, Small, Values, repeated, untouched};
use vector_reader::read_vector;

// How the sound page is changed, and what is asked of it: a place and the byte that stands there, how many bytes of the page are lent, the
// number of the vector, and how many values of the output are lent. Where nothing is changed, the place is that behind the page.
type Case = (usize, u8, usize, usize, usize);

// ---- 32-bit floats

// The sound page, 73 bytes, and a byte behind it.
const SOUND_32: [u8; 74] = [
    // s 3, 19 values
    0x01, 0x00, 0x00, 0x03, 0x13, 0x00, 0x00, 0x00,
    // offsets 12, 24, 49
    0x0C, 0x00, 0x00, 0x00, 0x18, 0x00, 0x00, 0x00, 0x31, 0x00, 0x00, 0x00,
    // place 20, vector 0: 1.0 to 8.0
    0x00, 0x00, 0x00, 0x00, 0x01, 0x00, 0x00, 0x00, 0x03, 0x88, 0xC6, 0xFA,
    // place 32, vector 1, exponent 1: 1.5, a NaN, 2.5, 0.33333334, 1.5, 3.0, 2.0, 1.5
    0x01, 0x00, 0x02, 0x00, 0x0F, 0x00, 0x00, 0x00, 0x04, 0x00, 0x0A, 0xF0, 0x05, 0x01, 0x00, 0x03,
    0x00, 0x00, 0x00, 0xC0, 0x7F, 0xAB, 0xAA, 0xAA, 0x3E,
    // place 57, vector 2: -1.0, -0.0, 1.0
    0x00, 0x00, 0x01, 0x00, 0xFF, 0xFF, 0xFF, 0xFF, 0x02, 0x20, 0x01, 0x00, 0x00, 0x00, 0x00, 0x80,
    // behind the page
    0x00,
];

const CASES_32: [Case; 54] = [
    // The sound page's vectors, then each with just enough room and with a value less.
    (73, 0x00, 73, 0, 9),
    (73, 0x00, 73, 1, 9),
    (73, 0x00, 73, 2, 9),
    (73, 0x00, 73, 1, 8),
    (73, 0x00, 73, 1, 7),
    (73, 0x00, 73, 2, 3),
    (73, 0x00, 73, 2, 2),
    (73, 0x00, 73, 0, 0),
    // Rows 1 to 6.
    (73, 0x00, 7, 1, 9), // seven bytes
    (0, 0x02, 73, 1, 9), // version 2
    (1, 0x01, 73, 1, 9), // mode 1
    (2, 0x01, 73, 1, 9), // integer encoding 1
    (3, 0x02, 73, 1, 9), // s 2
    (3, 0x0B, 73, 1, 9), // s 11
    (5, 0x40, 73, 1, 9), // 16,403 values
    // Row 30, which comes behind 6 and before the 7 of the offsets.
    (73, 0x00, 73, 3, 9),
    (73, 0x00, 73, 18446744073709551615, 9),
    (4, 0x00, 73, 0, 9), // no values
    (4, 0x00, 8, 0, 9), // no values in 8 bytes
    (5, 0x40, 73, 65535, 9), // 16,403 values
    (73, 0x00, 8, 3, 9), // header alone
    (73, 0x00, 8, 2, 9), // header alone
    (73, 0x00, 19, 0, 9), // offsets cut
    // Where vector 1 starts; at offset 8 its exponent would be 49, which comes too late to be row 9.
    (12, 0x08, 73, 1, 9), // offset 8
    (12, 0x0B, 73, 1, 9), // offset 11
    (12, 0x41, 73, 1, 9), // offset 65, the end
    (12, 0x42, 73, 1, 9), // offset 66, past the end
    (15, 0xFF, 73, 1, 9), // offset above 2^31
    // What the vector says of itself; at the largest width its data run past the end, before they end elsewhere than they should.
    (73, 0x00, 40, 1, 9), // metadata cut
    (32, 0x0B, 73, 1, 9), // exponent 11
    (33, 0x02, 73, 1, 9), // factor 2
    (34, 0x09, 73, 1, 9), // 9 exceptions of 8 values
    (59, 0x04, 73, 2, 9), // 4 exceptions of 3 values
    (40, 0x21, 73, 1, 9), // width 33
    (40, 0x20, 73, 1, 9), // width 32
    (73, 0x00, 56, 1, 9), // data cut
    // Where it ends, and then its list, which comes before the room.
    (16, 0x30, 73, 1, 9), // next offset 48
    (16, 0x32, 73, 1, 9), // next offset 50
    (73, 0x00, 74, 2, 9), // one byte more
    (45, 0x03, 73, 1, 9), // positions 3, 3
    (45, 0x08, 73, 1, 9), // first position 8
    (67, 0x03, 73, 2, 9), // position 3 of 3 values
    (67, 0x03, 74, 2, 9), // position 3 and one byte more
    (45, 0x03, 73, 1, 0), // positions 3, 3 and no room
    // Faults of another vector do not matter, nor does the gap before vector 1 where vector 0 has width 0; to that other one they do.
    (73, 0x00, 74, 1, 9), // one byte more
    (20, 0xFF, 73, 1, 9), // vector 0's exponent 255
    (20, 0xFF, 73, 0, 9), // vector 0's exponent 255
    (65, 0xFF, 73, 1, 9), // vector 2's width 255
    (65, 0xFF, 73, 2, 9), // vector 2's width 255
    (8, 0x00, 73, 1, 9), // vector 0's offset 0
    (8, 0x00, 73, 0, 9), // vector 0's offset 0
    (12, 0x00, 73, 2, 9), // vector 1's offset 0
    (28, 0x00, 73, 1, 9), // vector 0's width 0
    (28, 0x00, 73, 0, 9), // vector 0's width 0
];

// ---- 64-bit floats

// The sound page, 97 bytes, and a byte behind it.
const SOUND_64: [u8; 98] = [
    // s 3, 19 values
    0x01, 0x00, 0x00, 0x03, 0x13, 0x00, 0x00, 0x00,
    // offsets 12, 28, 65
    0x0C, 0x00, 0x00, 0x00, 0x1C, 0x00, 0x00, 0x00, 0x41, 0x00, 0x00, 0x00,
    // place 20, vector 0: 1.0 to 8.0
    0x00, 0x00, 0x00, 0x00, 0x01, 0x00, 0x00, 0x00, 0x00, 0x00, 0x00, 0x00, 0x03, 0x88, 0xC6, 0xFA,
    // place 36, vector 1, exponent 1: 1.5, a NaN, 2.5, a third, 1.5, 3.0, 2.0, 1.5
    0x01, 0x00, 0x02, 0x00, 0x0F, 0x00, 0x00, 0x00, 0x00, 0x00, 0x00, 0x00, 0x04, 0x00, 0x0A, 0xF0,
    0x05, 0x01, 0x00, 0x03, 0x00, 0x45, 0x23, 0x01, 0x00, 0x00, 0x00, 0xF8, 0x7F, 0x55, 0x55, 0x55,
    0x55, 0x55, 0x55, 0xD5, 0x3F,
    // place 73, vector 2: -1.0, -0.0, 1.0
    0x00, 0x00, 0x01, 0x00, 0xFF, 0xFF, 0xFF, 0xFF, 0xFF, 0xFF, 0xFF, 0xFF, 0x02, 0x20, 0x01, 0x00,
    0x00, 0x00, 0x00, 0x00, 0x00, 0x00, 0x00, 0x80,
    // behind the page
    0x00,
];

const CASES_64: [Case; 54] = [
    // The sound page's vectors, then each with just enough room and with a value less.
    (97, 0x00, 97, 0, 9),
    (97, 0x00, 97, 1, 9),
    (97, 0x00, 97, 2, 9),
    (97, 0x00, 97, 1, 8),
    (97, 0x00, 97, 1, 7),
    (97, 0x00, 97, 2, 3),
    (97, 0x00, 97, 2, 2),
    (97, 0x00, 97, 0, 0),
    // Rows 1 to 6.
    (97, 0x00, 7, 1, 9), // seven bytes
    (0, 0x02, 97, 1, 9), // version 2
    (1, 0x01, 97, 1, 9), // mode 1
    (2, 0x01, 97, 1, 9), // integer encoding 1
    (3, 0x02, 97, 1, 9), // s 2
    (3, 0x0B, 97, 1, 9), // s 11
    (5, 0x40, 97, 1, 9), // 16,403 values
    // Row 30, which comes behind 6 and before the 7 of the offsets.
    (97, 0x00, 97, 3, 9),
    (97, 0x00, 97, 18446744073709551615, 9),
    (4, 0x00, 97, 0, 9), // no values
    (4, 0x00, 8, 0, 9), // no values in 8 bytes
    (5, 0x40, 97, 65535, 9), // 16,403 values
    (97, 0x00, 8, 3, 9), // header alone
    (97, 0x00, 8, 2, 9), // header alone
    (97, 0x00, 19, 0, 9), // offsets cut
    // Where vector 1 starts; at offset 8 its exponent would be 65, which comes too late to be row 9.
    (12, 0x08, 97, 1, 9), // offset 8
    (12, 0x0B, 97, 1, 9), // offset 11
    (12, 0x59, 97, 1, 9), // offset 89, the end
    (12, 0x5A, 97, 1, 9), // offset 90, past the end
    (15, 0xFF, 97, 1, 9), // offset above 2^31
    // What the vector says of itself; at the largest width its data run past the end, before they end elsewhere than they should.
    (97, 0x00, 48, 1, 9), // metadata cut
    (36, 0x13, 97, 1, 9), // exponent 19
    (37, 0x02, 97, 1, 9), // factor 2
    (38, 0x09, 97, 1, 9), // 9 exceptions of 8 values
    (75, 0x04, 97, 2, 9), // 4 exceptions of 3 values
    (48, 0x41, 97, 1, 9), // width 65
    (48, 0x40, 97, 1, 9), // width 64
    (97, 0x00, 72, 1, 9), // data cut
    // Where it ends, and then its list, which comes before the room.
    (16, 0x40, 97, 1, 9), // next offset 64
    (16, 0x42, 97, 1, 9), // next offset 66
    (97, 0x00, 98, 2, 9), // one byte more
    (53, 0x03, 97, 1, 9), // positions 3, 3
    (53, 0x08, 97, 1, 9), // first position 8
    (87, 0x03, 97, 2, 9), // position 3 of 3 values
    (87, 0x03, 98, 2, 9), // position 3 and one byte more
    (53, 0x03, 97, 1, 0), // positions 3, 3 and no room
    // Faults of another vector do not matter, nor does the gap before vector 1 where vector 0 has width 0; to that other one they do.
    (97, 0x00, 98, 1, 9), // one byte more
    (20, 0xFF, 97, 1, 9), // vector 0's exponent 255
    (20, 0xFF, 97, 0, 9), // vector 0's exponent 255
    (85, 0xFF, 97, 1, 9), // vector 2's width 255
    (85, 0xFF, 97, 2, 9), // vector 2's width 255
    (8, 0x00, 97, 1, 9), // vector 0's offset 0
    (8, 0x00, 97, 0, 9), // vector 0's offset 0
    (12, 0x00, 97, 2, 9), // vector 1's offset 0
    (32, 0x00, 97, 1, 9), // vector 0's width 0
    (32, 0x00, 97, 0, 9), // vector 0's width 0
];

// ---- what is made of them

// How many values the output has.
const ROOM: usize = 9;

// One case: the answer, and the whole output behind it.
fn asked<V: Small, const N: usize>(to: &mut Recorder, sound: &[u8; N], case: Case)
    requires { (case.0 < N) × (case.2 ≤ N) × (case.4 ≤ ROOM) }
{
    let (at, byte, length, number, room) = case;
    let mut page = *sound;
    page[at] = byte;
    let mut out: [V; ROOM] = repeated(untouched());
    let read = read_vector(&page[..length], number, &mut out[..room]);
    let bits = 8 * V::BYTES;
    to.line(
        format_args!("{bits} byte {at} is {byte}, length {length}, vector {number}, room {room}:"),
        read,
        Values(&out),
    );
}

// Cases that lie inside the page and the output.
fn each<V: Small, const N: usize>(to: &mut Recorder, sound: &[u8; N], cases: &[Case])
    requires { IsTrue (list_all (λ c. nat_lt c.0 N && nat_le c.2 N && nat_le c.4 ROOM) cases.now) }
{
    for case in cases {
        asked::<V, N>(to, sound, *case);
    }
}

pub fn run(to: &mut Recorder) {
    both::<u32>(to, "32 sound", &SOUND_32[..73]);
    each::<u32, 74>(to, &SOUND_32, &CASES_32);
    both::<u64>(to, "64 sound", &SOUND_64[..97]);
    each::<u64, 98>(to, &SOUND_64, &CASES_64);
}
