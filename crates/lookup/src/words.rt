// Two 64-bit words, in which each kind of lookup spells its keys and its answers.
#[derive(Clone, Copy, PartialEq, Eq, Debug)]
pub struct Words {
    pub first: u64,
    pub second: u64,
}
