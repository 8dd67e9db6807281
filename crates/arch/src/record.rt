// The records that a sparse storage is made of, and that a run text's D and K lines spell.

// A doubleword: its address, a multiple of 8, and its value.
#[derive(Clone, Copy, PartialEq, Eq, Debug)]
pub struct Word {
    pub address: u64,
    pub value: u64,
}

// Block keys have five bits: each is less than this.
pub const KEY_LIMIT: u8 = 32;

// The key of a block of 4,096 bytes: four bits of access control, then the fetch bit.
#[derive(Clone, Copy, PartialEq, Eq, Debug)]
pub struct BlockKey {
    pub block: u64,
    pub key: u8,
}
