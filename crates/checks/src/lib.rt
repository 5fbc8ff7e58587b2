// The check of a page's layout, rows 1 to 14 and 17, once for both kinds: a kind is known here by its numbers alone. Each group of rows is a
// function, so that a call which orders them otherwise uses the same pieces.
#![tactic(auto)]

pub mod check;
pub mod head;
pub mod kind;
pub mod page;
pub mod sizes;
pub mod vector;
