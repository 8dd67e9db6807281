// The sparse storage: lent records of values and of block keys.
ghost use Rattle.std.specs.Prelude.{◌≡◌, find, is_some, nat_eq, if◌then◌else◌, None, Ok, Err};
ghost use Rattle.std.specs.Option.{option_map};
ghost use Rattle.arch.specs.declared.condition.Condition.TheVariants.{Addressing};
ghost use Rattle.storage.specs.Keyed.{sparse_keyed};
ghost use Rattle.storage.specs.Records.{value_at, key_at, with_value, words_after, sparse_view};
ghost use Rattle.storage.specs.Views.{after_put, put_result};

use crate::storage::{BLOCK_BYTES, Storage};
use arch::condition::Condition;
use arch::record::{BlockKey, KEY_LIMIT, Word};

// Lent records of doublewords and of block keys. Of several for one address, or for one block, the
// first counts.
#[derive(Drop)]
pub struct Sparse<'w, 'k> {
    pub words: &'w mut [Word],
    pub keys: &'k [BlockKey],
}

// The value of the first record of `address`.
fn first_value(words: &[Word], address: u64) -> Option<u64>
    ensures { result ≡ value_at words.now address }
{
    words
        .iter()
        .find(|word| word.address == address)
        .map(|word| word.value)
}

// What the first record of `block` says that its key is.
fn listed_key(keys: &[BlockKey], block: u64) -> Option<u8>
    ensures { result ≡ option_map (λ k. k.key) (find (λ k. nat_eq k.block block) keys.now) }
{
    keys.iter()
        .find(|entry| entry.block == block)
        .map(|entry| entry.key)
}

// The key of the first record of `block`. A key above 1f counts as none, whatever comes later.
fn first_key(keys: &[BlockKey], block: u64) -> Option<u8>
    ensures { result ≡ key_at keys.now block }
{
    listed_key(keys, block).filter(|key| *key < KEY_LIMIT)
}

// Sets the value of the first record of `address`, and changes no other record.
fn set_value(words: &mut [Word], address: u64, value: u64) -> Result<(), Condition>
    ensures result { result ≡
        (if is_some (value_at words.old address) then Ok tt else Err Addressing) }
    ensures after { words.new ≡ with_value words.old address value }
{
    match words.iter().position(|word| word.address == address) {
        Some(at) => {
            words[at].value = value;
            Ok(())
        }
        None => Err(Condition::Addressing),
    }
}

impl Storage for Sparse<'_, '_> {
    ghost view = { λ s. sparse_view s.words.now s.keys.now };

    fn fetch(&self, address: u64) -> Option<u64> {
        first_key(self.keys, address / BLOCK_BYTES)?;
        first_value(self.words, address)
    }

    fn key(&self, block: u64) -> Option<u8> {
        first_key(self.keys, block)
    }

    // Only the first record of the address changes, and none where the put is refused.
    fn put(&mut self, address: u64, value: u64) -> Result<(), Condition>
        ensures result { result ≡ put_result
            (sparse_view self.old.words.now self.old.keys.now) address }
        ensures after { sparse_view self.new.words.now self.new.keys.now
            ≡ after_put (sparse_view self.old.words.now self.old.keys.now) address value }
        ensures refused { (sparse_view self.old.words.now self.old.keys.now).word address ≡ None
            → self.new ≡ self.old }
        ensures words { self.new.words.now
            ≡ words_after self.old.words.now self.old.keys.now address value }
        ensures keys { self.new.keys ≡ self.old.keys }
    {
        first_key(self.keys, address / BLOCK_BYTES).ok_or(Condition::Addressing)?;
        set_value(self.words, address, value)
    }

    ghost keyed = { λ s. sparse_keyed s.words.now s.keys.now };
}
