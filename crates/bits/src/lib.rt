// Code on slices that knows nothing of floats: little-endian words, and packed fields read and written.
#![tactic(auto)]

pub mod fields; // fields.rt: packed fields written
mod runs; // runs.rt: fields one after the other, where whole words are there
pub mod windows; // windows.rt: packed fields read
pub mod word; // word.rt: little-endian words of 2, 4 and 8 bytes
mod words; // words.rt: the bits from a bit on, by whole words
