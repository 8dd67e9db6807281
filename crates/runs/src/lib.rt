// Calls as values: one call by itself, and whole runs of them from a new machine on.
#![tactic(auto)]

mod lent;
mod perform;
mod running;

pub use lent::run_lent;
pub use perform::answer;
pub use running::run;
