// Storages: what one means, the sparse storage over lent records, and the prefix layer over any
// other.
#![tactic(auto)]

pub mod prefix;
pub mod sparse;
pub mod storage;
