// The calls of a run. A number stands as it was written: what it may be is told by the call when it
// is made.

// What a translation is for.
#[derive(Clone, Copy, PartialEq, Eq, Debug)]
pub enum Access {
    Fetch,
    Store,
}

// One of the two sources of a machine.
#[derive(Clone, Copy, PartialEq, Eq, Debug)]
pub enum SourceName {
    AccessRegister,
    Page,
}

// A call of a run, as its line gives it. Its numbers have 64 bits, and no other bound until it is
// made.
#[derive(Clone, Copy, PartialEq, Eq, Debug)]
pub enum Call {
    LoadControl {
        register: u64,
        value: u64,
    },
    LoadAccess {
        register: u64,
        value: u64,
    },
    LoadMode {
        mode: u64,
        size: u64,
        key: u64,
    },
    SetPrefix {
        prefix: u64,
    },
    Translate {
        access: Access,
        register: u64,
        address: u64,
    },
    Put {
        address: u64,
        value: u64,
    },
    Purge {
        source: SourceName,
    },
}
