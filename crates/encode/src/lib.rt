// One vector of values to its bytes: scanned, then written straight into the lent output.
#![tactic(auto)]

pub mod scan; // scan.rt: the record of a vector in progress, and what it says of the vector's size
pub mod records; // records.rt: the records of a page's first vectors, kept from measuring for writing
pub mod lists; // lists.rt: the positions and the bit patterns of the exceptions
pub mod vector; // vector.rt: the metadata, the packed fields, and the whole vector
