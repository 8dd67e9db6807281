// What every layer speaks of: the conditions, the calls of a run, the records of a storage, and the
// bit fields of the architecture.
#![tactic(auto)]

pub mod bits;
pub mod call;
pub mod condition;
pub mod record;
