// One vector examined, rows 20 to 24. Each row is a function that walks over the vector's positions beside its fields: nothing is written,
// no buffer is held, and no list is searched.
#![tactic(auto)]

pub mod walk; // walk.rt: a vector's parts, what stands at a position, and a walk over all
pub mod faults; // faults.rt: the rows' conditions at one position
pub mod rows; // rows.rt: rows 20 to 24
pub mod vector; // vector.rt: the rows in their order
