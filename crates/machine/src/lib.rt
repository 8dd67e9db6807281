// The machine: its register set, and the calls that it answers over a storage and two sources.
#![tactic(auto)]

mod access;
mod counted;
mod load;
mod mode;
mod reach;
mod registers;
mod request;
mod sources;
mod space;
mod state;
mod translate;
pub mod worked;

pub use counted::Counted;
pub use mode::{AddressSize, Mode};
pub use registers::Machine;
pub use request::{Outcome, Request};
pub use sources::{Operand, Sources};
