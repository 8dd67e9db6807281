// The prefix layer over any storage: the 8,192 bytes at 0, and their keys, are exchanged with those
// at the prefix. Addresses above the layer are real, those beneath it absolute.
ghost use Rattle.std.specs.Prelude.{◌≡◌, ◌+◌, ◌/◌, ◌^◌, ◌<◌, true, false, if◌then◌else◌, None, Ok, Err};
ghost use Rattle.arch.specs.declared.condition.Condition.TheVariants.{BadPrefix};
ghost use Rattle.storage.specs.Keyed.{lawful_even, prefixed_keyed};
ghost use Rattle.storage.specs.Prefixes.{absolute, absolute_block, exchange, lawful_prefix, prefixed, Exchanges};
ghost use Rattle.storage.specs.Views.{after_put, put_result};

use crate::storage::{BLOCK_BYTES, Storage};
use arch::condition::Condition;
use std::marker::Model;

// The bytes that are exchanged; a prefix is a multiple of it.
const AREA_BYTES: u64 = 8192;

// A prefix: a multiple of 8,192 below 2^31. A clause sees it as that number.
#[derive(Clone, Copy, PartialEq, Eq, Debug)]
pub struct Prefix(u64);

impl Model for Prefix {
    ghost use Rattle.std.specs.Prelude.{◌≡◌, ℕ, true};
    ghost use Rattle.storage.specs.Prefixes.{lawful_prefix};

    ghost Value = { ℕ };

    ghost view = { λ p. p.0 };

    ghost invariant = { λ p. lawful_prefix p.0 ≡ true };

    ghost inverse = { λ n. record { 0 = n } };
}

impl Prefix {
    // The prefix 0, which exchanges nothing.
    pub fn zero() -> Self
        ensures { result ≡ 0 }
    {
        Prefix(0)
    }

    // The number that it is.
    pub fn get(self) -> u64
        ensures number { result ≡ self }
        ensures lawful { lawful_prefix self ≡ true }
        ensures exchanges { Exchanges self }
    {
        self.0
    }

    // The absolute address of a real one.
    fn absolute(self, address: u64) -> u64
        ensures { result ≡ absolute self address }
    {
        exchanged(AREA_BYTES, self.0, address)
    }

    // The absolute block of a real one.
    fn absolute_block(self, block: u64) -> u64
        ensures { result ≡ absolute_block self block }
    {
        exchanged(AREA_BYTES / BLOCK_BYTES, self.0 / BLOCK_BYTES, block)
    }
}

impl TryFrom<u64> for Prefix {
    type Error = Condition;

    ghost try_from_gives = { λ n r. r ≡ (if lawful_prefix n then Ok n else Err BadPrefix) };

    // Refuses what is no multiple of 8,192 below 2^31.
    fn try_from(number: u64) -> Result<Self, Condition> {
        if number % AREA_BYTES != 0 || number >= 1 << 31 {
            return Err(Condition::BadPrefix);
        }
        Ok(Prefix(number))
    }
}

#[derive(Drop)]
pub struct Prefixed<S> {
    pub beneath: S,
    prefix: Prefix,
    // A law sees a prefix as its number alone, so what its type says stands here again.
    ghost lawful: { lawful_prefix prefix ≡ true },
}

// The first `n` numbers exchanged with the `n` from `prefix` on.
fn exchanged(n: u64, prefix: u64, at: u64) -> u64
    requires { n + prefix < 2 ^ 32 }
    ensures { result ≡ exchange n prefix at }
{
    if at < n {
        at + prefix
    } else if at >= prefix && at < prefix + n {
        at - prefix
    } else {
        at
    }
}

impl<S> Prefixed<S> {
    // A layer over `beneath` with the prefix 0, which exchanges nothing.
    pub fn new(beneath: S) -> Self
        ensures under { result.beneath ≡ beneath }
        ensures prefix { result.prefix ≡ 0 }
    {
        Prefixed {
            beneath,
            prefix: Prefix::zero(),
        }
    }

    // Exchanges at this prefix from now on.
    pub fn load_prefix(&mut self, prefix: Prefix)
        ensures prefix { self.new.prefix ≡ prefix }
        ensures under { self.new.beneath ≡ self.old.beneath }
    {
        self.prefix = prefix;
    }

    // Sets the prefix; refuses what is no multiple of 8,192 below 2^31, and changes nothing then.
    pub fn set_prefix(&mut self, prefix: u64) -> Result<(), Condition>
        ensures result { result ≡ (if lawful_prefix prefix then Ok tt else Err BadPrefix) }
        ensures prefix { self.new.prefix ≡
            (if lawful_prefix prefix then prefix else self.old.prefix) }
        ensures under { self.new.beneath ≡ self.old.beneath }
        ensures refused { lawful_prefix prefix ≡ false → self.new ≡ self.old }
    {
        self.load_prefix(Prefix::try_from(prefix)?);
        Ok(())
    }
}

impl<S: Storage> Storage for Prefixed<S> {
    ghost view = { λ s. prefixed s.prefix (S.view s.beneath) };

    fn fetch(&self, address: u64) -> Option<u64> {
        self.beneath.fetch(self.prefix.absolute(address))
    }

    fn key(&self, block: u64) -> Option<u8> {
        self.beneath.key(self.prefix.absolute_block(block))
    }

    // The prefix stays, and beneath the doubleword at the absolute address is put.
    fn put(&mut self, address: u64, value: u64) -> Result<(), Condition>
        ensures result { result ≡ put_result
            (prefixed self.old.prefix (S.view self.old.beneath)) address }
        ensures after { prefixed self.new.prefix (S.view self.new.beneath)
            ≡ after_put (prefixed self.old.prefix (S.view self.old.beneath)) address value }
        ensures refused { (prefixed self.old.prefix (S.view self.old.beneath)).word address ≡ None
            → self.new ≡ self.old }
        ensures prefix { self.new.prefix ≡ self.old.prefix }
        ensures under { S.view self.new.beneath
            ≡ after_put (S.view self.old.beneath) (absolute self.old.prefix address) value }
    {
        self.beneath.put(self.prefix.absolute(address), value)
    }

    ghost keyed = { λ s. prefixed_keyed s.prefix (S.view s.beneath) (lawful_even s.prefix s.lawful) (S.keyed s.beneath) };
}
