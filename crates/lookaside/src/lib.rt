// Lookasides: layers that hold answers, each over any source.
#![tactic(auto)]

pub mod direct_mapped;
pub mod lookaside;
pub mod round_robin;
pub mod row;
pub mod table;
