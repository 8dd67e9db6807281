// The calls of a machine as values, and what comes of them.
use crate::counted::Counted;
use arch::call::Call;
use arch::condition::Condition;

// A call: one that a line of a run text makes, or an access to the doubleword at an address, by an
// access register.
#[derive(Clone, Copy)]
pub enum Request {
    Line(Call),
    Fetch {
        register: u64,
        address: u64,
    },
    Store {
        register: u64,
        address: u64,
        value: u64,
    },
}

// What came of a call.
#[derive(Clone, Copy)]
pub enum Outcome {
    // of a load or a new prefix
    Loaded(Result<(), Condition>),
    Translated(Counted<u64>),
    Put(Result<(), Condition>),
    Purged,
    Fetched(Counted<u64>),
    Stored(Counted<()>),
}
