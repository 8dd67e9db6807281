// From an address to the doubleword that it reaches. Numbers of a format stand where its bits are
// named; each step says again what it gives and asks, since the step before it sees nothing else.
ghost use Rattle.std.specs.Prelude.{◌≡◌, ◌+◌, ◌<◌, ◌≤◌, [], length, Some};
ghost use Rattle.arch.specs.Walks.{Gives};
ghost use Rattle.lookup.specs.Lookups.{page_asks};
ghost use Rattle.machine.specs.Calls.{access_key_asked, page_key_asked};
ghost use Rattle.machine.specs.Scene.{seen, shown, ask_access, ask_page};
ghost use Rattle.machine.specs.Translation.{is_store, cut as cutting, low_protected, key_protected, framed as framing, by_page, real_of, reached as reaching, reach as reach_by, page_key, space_asks};
ghost use Rattle.machine.specs.Turns.{AsksAccess, AsksPage};

use crate::mode::AddressSize;
use crate::registers::Machine;
use crate::sources::{Operand, Sources};
use arch::bits::flag;
use arch::call::Access;
use arch::condition::Condition;
use lookup::access::AccessAnswer;
use lookup::kinds::{AccessRegister, Paging};
use lookup::page::{PageAnswer, PageKey};
use lookup::source::Source;
use lookup::step::check;
use lookup::trace::CallTrace;
use storage::storage::{BLOCK_BYTES, Storage};

fn stores(access: Access) -> bool
    ensures { result ≡ is_store access }
{
    matches!(access, Access::Store)
}

// The access key is neither zero nor the block's access control, for a store or with the fetch bit
// one.
fn key_protected(key: u8, access: Access, block: Option<u8>) -> bool
    ensures { result ≡ key_protected key access block }
{
    match block {
        None => false,
        Some(k) => key != 0 && (key != k / 2 && (stores(access) || k % 2 == 1)),
    }
}

// From what a page lookup found to the real address.
fn framed(
    access: Access,
    space: AccessAnswer,
    address: u64,
    page: PageAnswer,
) -> Result<u64, Condition>
    ensures result { result ≡ (framing access space address page).result }
    ensures none { (framing access space address page).trace ≡ [] }
{
    check(Condition::AccessList, stores(access) && space.fetch_only)?;
    check(Condition::Page, stores(access) && page.protect)?;
    Ok(page.frame % (1 << 52) * 4096 + address % 4096)
}

// Through the pages of a space to a real address.
fn by_pages<S: Storage, P: Source<Paging>>(
    storage: &S,
    source: &mut P,
    access: Access,
    space: AccessAnswer,
    address: u64,
    trace: &mut CallTrace,
) -> Result<u64, Condition>
    requires { length trace.old.items + 5 ≤ 12 }
    ensures gives { Gives 5
        (by_page (page_asks (P.shows source.old) (S.view storage.now).word) access space address)
        trace.old.items trace.new.items result }
    ensures asks { AsksPage P.Source (S.view storage.now)
        (Some (page_key space.asce address)) source.old source.new }
{
    let key = PageKey {
        asce: space.asce,
        page: address / 4096,
    };
    let page = source.ask(storage, key, trace)?;
    framed(access, space, address, page)
}

// With DAT off the address is real.
fn real_of<S: Storage, P: Source<Paging>>(
    storage: &S,
    source: &mut P,
    access: Access,
    space: Option<AccessAnswer>,
    address: u64,
    trace: &mut CallTrace,
) -> Result<u64, Condition>
    requires { length trace.old.items + 5 ≤ 12 }
    ensures gives { Gives 5
        (real_of (page_asks (P.shows source.old) (S.view storage.now).word) access space address)
        trace.old.items trace.new.items result }
    ensures asks { AsksPage P.Source (S.view storage.now)
        (space_asks space address) source.old source.new }
{
    match space {
        None => Ok(address),
        Some(space) => by_pages(storage, source, access, space, address, trace),
    }
}

impl Machine {
    // The address's low 24, 31 or 64 bits.
    fn cut(&self, address: u64) -> u64
        ensures { result ≡ cutting self.now.size address }
    {
        match self.size {
            AddressSize::Bits24 => address % (1 << 24),
            AddressSize::Bits31 => address % (1 << 31),
            AddressSize::Bits64 => address,
        }
    }

    // A store to 0-1ff or 1000-11ff where control register 0 protects them.
    fn low_protected(&self, access: Access, address: u64) -> bool
        ensures { result ≡ low_protected self.now access address }
    {
        let low = address < 512 || (address >= 4096 && address < 4608);
        stores(access) && (low && flag(self.control[0], 35))
    }

    // The doubleword that holds the real address is there, and its block's key allows the access.
    fn reached<S: Storage>(&self, storage: &S, access: Access, real: u64) -> Result<u64, Condition>
        ensures result { result ≡ (reaching self.now (S.view storage.now) access real).result }
        ensures none { (reaching self.now (S.view storage.now) access real).trace ≡ [] }
    {
        check(Condition::Addressing, storage.fetch(real / 8 * 8).is_none())?;
        check(
            Condition::Key,
            key_protected(self.key, access, storage.key(real / BLOCK_BYTES)),
        )?;
        Ok(real)
    }

    // The whole of a translation that is not refused.
    pub(crate) fn reach<S: Storage, A: Source<AccessRegister>, P: Source<Paging>>(
        &self,
        storage: &S,
        sources: &mut Sources<A, P>,
        access: Access,
        operand: Operand,
        trace: &mut CallTrace,
    ) -> Result<u64, Condition>
        requires register { operand.register < 16 }
        requires empty { trace.old.items ≡ [] }
        ensures gives { Gives 12 (reach_by self.now
            (ask_access (seen self.now (S.view storage.now) (shown A.Source P.Source sources.old)))
            (ask_page (seen self.now (S.view storage.now) (shown A.Source P.Source sources.old)))
            (S.view storage.now) access operand) trace.old.items trace.new.items result }
        ensures access { AsksAccess A.Source (S.view storage.now)
            (access_key_asked (seen self.now (S.view storage.now)
            (shown A.Source P.Source sources.old)) operand)
            sources.old.access sources.new.access }
        ensures page { AsksPage P.Source (S.view storage.now)
            (page_key_asked (seen self.now (S.view storage.now)
            (shown A.Source P.Source sources.old)) access operand)
            sources.old.page sources.new.page }
    {
        let register = operand.register as usize;
        let address = self.cut(operand.address);
        let space = self.space(storage, &mut sources.access, register, trace)?;
        check(Condition::LowAddress, self.low_protected(access, address))?;
        let real = real_of(storage, &mut sources.page, access, space, address, trace)?;
        self.reached(storage, access, real)
    }
}
