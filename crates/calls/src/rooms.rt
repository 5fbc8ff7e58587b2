// The rooms that requests are read into and answered from, each for the most that one may bring (docs/FRAMES.md). They are made once, on the
// stack, and lent to one request after the other: so none stops for want of memory, and none takes longer than it takes for what it brings.
pub const MOST_VALUES: usize = 16_400;

pub const MOST_BYTES: usize = 400_000;

pub const MOST_PAIRS: usize = 4_200;

// The bytes of so many values of the larger kind.
pub const MOST_RAW: usize = 131_200;

// The rooms for bytes, as they are lent to one request.
#[derive(Drop)]
pub struct Rooms<'a> {
    pub page: &'a mut [u8; MOST_BYTES],
    pub pairs: &'a mut [u8; MOST_PAIRS],
    pub raw: &'a mut [u8; MOST_RAW],
}

// Each room comes from a function, so that a proof that cuts it knows its length alone, and not its zeros.
pub fn room<T: Copy, const N: usize>(zero: T) -> [T; N] {
    [zero; N]
}
