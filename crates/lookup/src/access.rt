// The access-register lookup.
ghost use Rattle.std.specs.Prelude.{◌+◌, ◌^◌, ◌<◌, ◌≤◌, length, IfOk};
ghost use Rattle.arch.specs.Walks.{Walks};
ghost use Rattle.lookup.specs.Access.{access_limit, locate as locating, entry_first, entry as entering, aste_first, aste_sequence, aste as second_table, secondary as has_secondary, authorized as authorizing, access_walk};

use crate::step::{check, read};
use crate::trace::Trace;
use arch::bits::{field, flag};
use arch::condition::Condition;
use storage::storage::Storage;

// Addresses of access-register tables stay below 2^31.
const LIMIT: u128 = 1 << 31;

// What an access-register lookup asks for: the access-list-entry token, the extended authorization
// index, and the real address of the doubleword whose left half is the access-list designation.
#[derive(Clone, Copy, PartialEq, Eq, Debug)]
pub struct AccessKey {
    pub alet: u32,
    pub eax: u16,
    pub designation: u64,
}

// What it finds: the address-space-control element, and whether the entry allows fetches only.
#[derive(Clone, Copy, PartialEq, Eq, Debug)]
pub struct AccessAnswer {
    pub asce: u64,
    pub fetch_only: bool,
}

// An access-list entry.
#[derive(Clone, Copy)]
struct AccessEntry {
    first: u64,
    second: u64,
}

// The address of the access-list entry.
fn locate<S: Storage, T: Trace>(
    storage: &S,
    key: AccessKey,
    trace: &mut T,
) -> Result<u128, Condition>
    requires { length (T.addresses trace.old) + 1 ≤ T.room }
    ensures walked { Walks 1 access_limit (S.view storage.now).word (locating key)
        (T.addresses trace.old) (T.addresses trace.new) result }
    ensures small { IfOk result (λ at. at < 2 ^ 64) }
{
    let alet = u64::from(key.alet);
    let number = field(alet, 48, 63);
    check(Condition::AletSpecification, field(alet, 32, 38) != 0)?;
    let designation = read(storage, u128::from(key.designation), LIMIT, trace)?;
    check(
        Condition::AlenTranslation,
        number / 8 > field(designation, 25, 31),
    )?;
    Ok(u128::from(field(designation, 1, 24) * 128 + 16 * number))
}

// The first doubleword of the access-list entry, valid and of the token's sequence.
fn entry_first<S: Storage, T: Trace>(
    storage: &S,
    key: AccessKey,
    at: u128,
    trace: &mut T,
) -> Result<u64, Condition>
    requires { length (T.addresses trace.old) + 1 ≤ T.room }
    ensures { Walks 1 access_limit (S.view storage.now).word (entry_first key at)
        (T.addresses trace.old) (T.addresses trace.new) result }
{
    let first = read(storage, at, LIMIT, trace)?;
    check(Condition::AlenTranslation, flag(first, 0))?;
    check(
        Condition::AleSequence,
        field(u64::from(key.alet), 40, 47) != field(first, 8, 15),
    )?;
    Ok(first)
}

// Both doublewords of the access-list entry.
fn entry<S: Storage, T: Trace>(
    storage: &S,
    key: AccessKey,
    at: u128,
    trace: &mut T,
) -> Result<AccessEntry, Condition>
    requires small { at < 2 ^ 64 }
    requires room { length (T.addresses trace.old) + 2 ≤ T.room }
    ensures { Walks 2 access_limit (S.view storage.now).word (entering key at)
        (T.addresses trace.old) (T.addresses trace.new) result }
{
    let first = entry_first(storage, key, at, trace)?;
    let second = read(storage, at + 8, LIMIT, trace)?;
    Ok(AccessEntry { first, second })
}

// The first doubleword of the ASTE, the ASN-second-table entry, valid.
fn aste_first<S: Storage, T: Trace>(
    storage: &S,
    second: u64,
    trace: &mut T,
) -> Result<u64, Condition>
    requires { length (T.addresses trace.old) + 1 ≤ T.room }
    ensures { Walks 1 access_limit (S.view storage.now).word (aste_first second)
        (T.addresses trace.old) (T.addresses trace.new) result }
{
    let first = read(storage, u128::from(field(second, 1, 25) * 64), LIMIT, trace)?;
    check(Condition::AsteValidity, flag(first, 0))?;
    Ok(first)
}

// Its third doubleword has the sequence number of the access-list entry.
fn aste_sequence<S: Storage, T: Trace>(
    storage: &S,
    second: u64,
    trace: &mut T,
) -> Result<(), Condition>
    requires { length (T.addresses trace.old) + 1 ≤ T.room }
    ensures { Walks 1 access_limit (S.view storage.now).word (aste_sequence second)
        (T.addresses trace.old) (T.addresses trace.new) result }
{
    let third = read(
        storage,
        u128::from(field(second, 1, 25) * 64 + 16),
        LIMIT,
        trace,
    )?;
    check(
        Condition::AsteSequence,
        field(second, 32, 63) != field(third, 32, 63),
    )
}

fn aste<S: Storage, T: Trace>(storage: &S, second: u64, trace: &mut T) -> Result<u64, Condition>
    requires { length (T.addresses trace.old) + 2 ≤ T.room }
    ensures { Walks 2 access_limit (S.view storage.now).word (second_table second)
        (T.addresses trace.old) (T.addresses trace.new) result }
{
    let first = aste_first(storage, second, trace)?;
    aste_sequence(storage, second, trace)?;
    Ok(first)
}

// Whether the authority table grants the secondary bit of an index.
fn secondary<S: Storage, T: Trace>(
    storage: &S,
    eax: u16,
    aste: u64,
    trace: &mut T,
) -> Result<(), Condition>
    requires { length (T.addresses trace.old) + 1 ≤ T.room }
    ensures { Walks 1 access_limit (S.view storage.now).word (has_secondary eax aste)
        (T.addresses trace.old) (T.addresses trace.new) result }
{
    let index = u64::from(eax);
    check(
        Condition::ExtendedAuthority,
        index / 16 > field(aste, 48, 59),
    )?;
    let byte = field(aste, 1, 29) * 4 + index / 4;
    let authority = read(storage, u128::from(byte / 8 * 8), LIMIT, trace)?;
    let bit = byte % 8 * 8 + (2 * (index % 4) + 1);
    check(Condition::ExtendedAuthority, !flag(authority, bit as u8))
}

// A private entry whose own index differs from the program's asks for authority.
fn authorized<S: Storage, T: Trace>(
    storage: &S,
    key: AccessKey,
    first: u64,
    aste: u64,
    trace: &mut T,
) -> Result<(), Condition>
    requires { length (T.addresses trace.old) + 1 ≤ T.room }
    ensures { Walks 1 access_limit (S.view storage.now).word (authorizing key first aste)
        (T.addresses trace.old) (T.addresses trace.new) result }
{
    if flag(first, 7) && field(first, 16, 31) != u64::from(key.eax) {
        return secondary(storage, key.eax, aste, trace);
    }
    Ok(())
}

// The whole lookup, walked afresh.
pub(crate) fn walk<S: Storage, T: Trace>(
    storage: &S,
    key: AccessKey,
    trace: &mut T,
) -> Result<AccessAnswer, Condition>
    requires { length (T.addresses trace.old) + 7 ≤ T.room }
    ensures { Walks 7 access_limit (S.view storage.now).word (access_walk key)
        (T.addresses trace.old) (T.addresses trace.new) result }
{
    let at = locate(storage, key, trace)?;
    let found = entry(storage, key, at, trace)?;
    let first = aste(storage, found.second, trace)?;
    authorized(storage, key, found.first, first, trace)?;
    let asce = read(
        storage,
        u128::from(field(found.second, 1, 25) * 64 + 8),
        LIMIT,
        trace,
    )?;
    Ok(AccessAnswer {
        asce,
        fetch_only: flag(found.first, 6),
    })
}
