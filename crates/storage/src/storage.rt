// What a storage is: doublewords at addresses, and keys of blocks.
ghost use Rattle.std.specs.Prelude.{◌≡◌, ◌/◌, None};
ghost use Rattle.storage.specs.Views.{View, Keyed, after_put, put_result};

use arch::condition::Condition;

// The bytes of a block, which has one key.
pub const BLOCK_BYTES: u64 = 4096;

// Doublewords by their addresses in bytes, and block keys of five bits by the numbers of blocks.
// What is absent is told by None, and at a put by `Addressing`.
pub trait Storage {
    // Which doublewords are present, their values, and the key of each block that has one.
    ghost view: { Self → View };

    // The value of the doubleword at `address`, or None where it is absent.
    fn fetch(&self, address: u64) -> Option<u64>
        ensures { result ≡ (view self.now).word address };

    // The key of a block, or None where it has none.
    fn key(&self, block: u64) -> Option<u8>
        ensures { result ≡ (view self.now).key block };

    // Sets the value of a present doubleword; refuses an absent one and changes nothing.
    fn put(&mut self, address: u64, value: u64) -> Result<(), Condition>
        ensures result { result ≡ put_result (view self.old) address }
        ensures after { view self.new ≡ after_put (view self.old) address value }
        ensures refused { (view self.old).word address ≡ None → self.new ≡ self.old };

    // A present doubleword's block has a key, and every key is 0 to 1f.
    ghost keyed: { (s : Self) → Keyed (view s) };
}
