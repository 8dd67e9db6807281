// The two lookups: an access register's entry to its address space, and a page number to its frame.
// What a kind of lookup is, what a source of answers is, and the source that always walks the
// tables.
#![tactic(auto)]

pub mod access;
pub mod kind;
pub mod kinds;
pub mod listed;
pub mod page;
pub mod source;
pub mod step;
pub mod trace;
pub mod words;
pub mod worked;
