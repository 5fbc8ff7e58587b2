// What the fast rounding turns otherwise than the nearest whole number would be: vectors about 2^22, 2^51 and L, with sums that go to even
// and with fractions that are dropped; and pages of the older rule, which the reader takes and the examiner does not.
use crate::pages::{Page, each};
use crate::show::Recorder;
use crate::starred::{Column, rounds};

const SINGLE: [Column<u32>; 6] = [
    // 4194303.0, 4194304.0, 4194305.0, 4194306.0, 4194307.0, -4194304.5, -4194305.0, 8388607.0
    (
        "rounded-0",
        0,
        0,
        &[
            0x4A7FFFFC, 0x4A800000, 0x4A800002, 0x4A800004, 0x4A800006, 0xCA800001, 0xCA800002,
            0x4AFFFFFE,
        ],
    ),
    // L - 128, L, -L, -2^31
    (
        "rounded-ends",
        0,
        0,
        &[0x4EFFFFFE, 0x4EFFFFFF, 0xCEFFFFFF, 0xCF000000],
    ),
    // -481.9323, whose half is dropped; 5751.0, to a multiple of 8 in the sum
    ("rounded-5-1", 5, 1, &[0xC3F0F756, 0x45B3B800]),
    // -79321.3 and -71874.41, which without their halves do not come back; 41943.05, one above 2^22
    ("rounded-2", 2, 0, &[0xC79AECA6, 0xC78C6134, 0x4723D70D]),
    // 9.1697, up to even
    ("rounded-10-4", 10, 4, &[0x4112B717]),
    // 1483887.625, down to even; 214748352.0, rounded to 2^31, which would come back
    ("rounded-2-1", 2, 1, &[0x49B5237D, 0x4D4CCCCC]),
];

const DOUBLE: [Column<u64>; 5] = [
    // 2^51 + 1, 2^51 + 2, -(2^51 + 0.5), -(2^51 + 1)
    (
        "rounded-64-0",
        0,
        0,
        &[
            0x4320000000000002,
            0x4320000000000004,
            0xC320000000000001,
            0xC320000000000002,
        ],
    ),
    // L - 1,024, L, -L
    (
        "rounded-64-ends",
        0,
        0,
        &[0x43DFFFFFFFFFFFFE, 0x43DFFFFFFFFFFFFF, 0xC3DFFFFFFFFFFFFF],
    ),
    // -4.1, whose half is dropped; 4.384, down to even
    (
        "rounded-64-15",
        15,
        0,
        &[0xC010666666666666, 0x401189374BC6A7F0],
    ),
    // 684.2, down to even; -684.2
    (
        "rounded-64-14-1",
        14,
        1,
        &[0x408561999999999A, 0xC08561999999999A],
    ),
    // 922337203685477478.4, rounded to 2^63, which would come back
    ("rounded-64-6-5", 6, 5, &[0x43A9999999999999]),
];

// Pages of the older rule.
const OLDER_SINGLE: [Page; 5] = [
    // R8 with frame 4,194,305
    (
        "older-R8",
        b"\x01\x00\x00\x0A\x01\x00\x00\x00\x04\x00\x00\x00\x00\x00\x00\x00\x01\x00\x40\x00\x00",
    ),
    // R9 with frame L
    (
        "older-R9",
        b"\x01\x00\x00\x0A\x01\x00\x00\x00\x04\x00\x00\x00\x00\x00\x00\x00\x80\xFF\xFF\x7F\x00",
    ),
    // 1483887.625, e 2, f 1, with frame 14,838,877, from which it would come back
    (
        "older-whole",
        b"\x01\x00\x00\x0A\x01\x00\x00\x00\x04\x00\x00\x00\x02\x01\x00\x00\x5D\x6C\xE2\x00\x00",
    ),
    // a second vector of 4194304.0, 4194306.0, 4194307.0
    (
        "older-place",
        b"\x01\x00\x00\x03\x0B\x00\x00\x00\x08\x00\x00\x00\x11\x00\x00\x00\x00\x00\x00\x00\x07\x00\x00\x00\x00\x00\x00\x00\x00\x00\
          \x00\x40\x00\x02\x38",
    ),
    // -481.9323, e 5, f 1, listed
    (
        "older-listed",
        b"\x01\x00\x00\x0A\x01\x00\x00\x00\x04\x00\x00\x00\x05\x01\x01\x00\x00\x00\x00\x00\x00\x00\x00\x56\xF7\xF0\xC3",
    ),
];

const OLDER_DOUBLE: [Page; 2] = [
    // 2^51 + 1 unlisted
    (
        "older-64",
        b"\x01\x00\x00\x0A\x01\x00\x00\x00\x04\x00\x00\x00\x00\x00\x00\x00\x01\x00\x00\x00\x00\x00\x08\x00\x00",
    ),
    // -4.1, e 15, listed
    (
        "older-listed-64",
        b"\x01\x00\x00\x0A\x01\x00\x00\x00\x04\x00\x00\x00\x0F\x00\x01\x00\x00\x00\x00\x00\x00\x00\x00\x00\x00\x00\x00\x66\x66\x66\
          \x66\x66\x66\x10\xC0",
    ),
];

pub fn run(to: &mut Recorder) {
    rounds(to, &SINGLE);
    rounds(to, &DOUBLE);
    each::<u32>(to, &OLDER_SINGLE);
    each::<u64>(to, &OLDER_DOUBLE);
}
