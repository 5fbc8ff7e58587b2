// One vector of a page to its values, for both kinds: its fields are unpacked into the lent part of the output, each is turned in place, and
// the listed exceptions are put.
#![tactic(auto)]

pub mod listed; // listed.rt: the listed exceptions' bits, put one by one
pub mod vector; // vector.rt: one vector's bytes to its values
