// Document 01's rules for ALP pages: definitions (specs/) and the laws about them that code cites (proofs/). No functions.
#![tactic(auto)]

// What every call answers: 0 for done or the number of the row that refuses, a vector number, and a place. C takes it by value, so it is three
// numbers and no `Result`; inside, a check gives a `Result` (`checks::check`).
#[repr(C)]
#[derive(Clone, Copy)]
pub struct Answer {
    pub number: u64,
    pub vector: u64,
    pub place: u64,
}

// What choosing a vector's pair answers: the answer, and the pair, which is 0 and 0 where it refuses. C takes it too.
#[repr(C)]
#[derive(Clone, Copy)]
pub struct Choice {
    pub answer: Answer,
    pub exponent: u8,
    pub factor: u8,
}

// Why a call refuses: a row of document 01's table, by its number there.
#[derive(Clone, Copy, PartialEq, Eq)]
pub enum Row {
    FewBytes = 1,
    Version = 2,
    Mode = 3,
    IntegerEncoding = 4,
    VectorSize = 5,
    TooManyValues = 6,
    PastEnd = 7,
    Offset = 8,
    Exponent = 9,
    Factor = 10,
    TooManyExceptions = 11,
    Width = 12,
    Position = 13,
    BytesAfter = 14,
    OutputTooShort = 15,
    Pairs = 16,
    SumOutOfRange = 17,
    UnusedBit = 20,
    Unlisted = 21,
    Listed = 22,
    StandIn = 23,
    FrameOrWidth = 24,
    NoSuchVector = 30,
    NotOneVector = 31,
}

// The two float kinds: of 32 bits and of 64.
#[derive(Clone, Copy)]
pub enum Kind {
    Single,
    Double,
}

// A vector's exponent and its factor, each a type of its own, so that the two can't be swapped.
#[derive(Clone, Copy)]
pub struct Exponent(pub u8);

#[derive(Clone, Copy)]
pub struct Factor(pub u8);

// Both together, as a vector has them.
#[derive(Clone, Copy)]
pub struct Pair {
    pub exponent: Exponent,
    pub factor: Factor,
}
