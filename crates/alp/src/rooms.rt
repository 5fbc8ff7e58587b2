// The arrays that files are read into and made from. They lie on the stack, so that no job stops halfway for want of memory. Each comes from a
// function, so that a proof that cuts one knows its length alone, and not its zeros, and a job that its words refuse makes none.
pub fn room<const N: usize>() -> [u8; N] {
    [0; N]
}

// A byte more than the longest page has. The first bytes of a longer file get the answer that all of it would get (`tool_reads_enough` and
// its neighbours in theorems/proofs/Longer); one vector alone may lie behind them, so it is not read from a file that fills this.
pub const PAGE_FILE: usize = 329737;

// No page of the kind is longer (`no_page_is_longer`, `longest_32` and `longest_64` in theorems/proofs/Longer), so whatever measuring answers
// fits.
pub const SINGLE_PAGE: usize = 190472;

pub const DOUBLE_PAGE: usize = 329736;

// A value more than a page holds: a longer column is refused like that one.
pub const VALUES: usize = 16385;

// One for each kind: of an array over any `V` the check does not see that it fits a memory.
pub fn singles() -> [u32; VALUES] {
    [0; VALUES]
}

pub fn doubles() -> [u64; VALUES] {
    [0; VALUES]
}

// Their bytes.
pub const SINGLE_COLUMN: usize = 65540;

pub const DOUBLE_COLUMN: usize = 131080;

// Two bytes a vector, and no more vectors than values.
pub const PAIRS: usize = 32768;
