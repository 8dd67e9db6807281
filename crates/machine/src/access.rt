// Fetch and store: a translation, and then the doubleword.
ghost use Rattle.std.specs.Prelude.{◌≡◌, length, OnErr};
ghost use Rattle.arch.specs.declared.call.Access.TheVariants.{Fetch, Store};
ghost use Rattle.machine.specs.Calls.{FetchesThere, Makes, StoresThere, accesses, fetches, refuses_access, stored_word, stores, value_there};
ghost use Rattle.machine.specs.Law.{AnswersFresh, StoresFresh};
ghost use Rattle.machine.specs.Orders.{OrderedIn, fetch_store_conditions, real_found, value_found};
ghost use Rattle.machine.specs.Puts.{LayerAfter, after_puts_under};
ghost use Rattle.machine.specs.Scene.{held, scene};
ghost use Rattle.storage.specs.Layer.{prefix_of};
ghost use Rattle.storage.specs.Prefixes.{prefixed};

use crate::counted::Counted;
use crate::registers::Machine;
use crate::sources::{Operand, Sources};
use arch::call::Access;
use arch::condition::Condition;
use lookup::kinds::{AccessRegister, Paging};
use lookup::source::Source;
use lookup::trace::PLACES;
use storage::prefix::Prefixed;
use storage::storage::Storage;

impl Machine {
    // The doubleword at a real address.
    fn fetch_real<S: Storage>(&self, storage: &mut Prefixed<S>, real: u64) -> Result<u64, Condition>
        ensures result { result ≡ value_there
            ((prefixed self.now.prefix (S.view storage.old.beneath)).word real) }
        ensures storage { storage.new.beneath ≡ storage.old.beneath }
        ensures layer { prefix_of storage.new ≡ self.now.prefix }
    {
        storage.load_prefix(self.prefix);
        storage.fetch(real).ok_or(Condition::Addressing)
    }

    // The translation that an access makes. Refused before it, in this order: a number of no access
    // register, an address that is no multiple of 8, too few places. (It has the clauses of
    // `translate`, said of an access: its callers see nothing else of it.)
    fn accessed<S: Storage, A: Source<AccessRegister>, P: Source<Paging>>(
        &mut self,
        storage: &mut Prefixed<S>,
        sources: &mut Sources<A, P>,
        access: Access,
        operand: Operand,
        list: &mut [u64],
    ) -> Counted<u64>
        ensures makes { Makes A.Source P.Source (accesses access operand (length list.old))
            (scene S.Storage A.Source P.Source self.old storage.old sources.old)
            sources.old list.old result sources.new list.new }
        ensures registers { self.new ≡ self.old }
        ensures storage { storage.new.beneath ≡ storage.old.beneath }
        ensures layer { LayerAfter (refuses_access operand (length list.old)) self.old.prefix
            storage.old storage.new }
        ensures order { OrderedIn
            (scene S.Storage A.Source P.Source self.old storage.old sources.old)
            (λ n. fetch_store_conditions n access operand (length list.old))
            (λ n. real_found n access operand) result.result }
        ensures law { AnswersFresh (accesses access operand (length list.old))
            (scene S.Storage A.Source P.Source self.old storage.old sources.old) result.result
            (held A.Source P.Source sources.old) (held A.Source P.Source sources.new) }
    {
        if operand.register > 15 {
            return Counted::refused(Condition::BadNumber);
        }
        if operand.address % 8 != 0 {
            return Counted::refused(Condition::Unaligned);
        }
        if list.len() < PLACES {
            return Counted::refused(Condition::ShortList);
        }
        self.translate(storage, sources, access, operand, list)
    }

    // Fetches the doubleword at an address, by an access register. It comes to the value at the real
    // address exactly where no condition of its table applies, and else to the first that does.
    pub fn fetch<S: Storage, A: Source<AccessRegister>, P: Source<Paging>>(
        &mut self,
        storage: &mut Prefixed<S>,
        sources: &mut Sources<A, P>,
        operand: Operand,
        list: &mut [u64],
    ) -> Counted<u64>
        ensures makes { Makes A.Source P.Source (fetches operand (length list.old))
            (scene S.Storage A.Source P.Source self.old storage.old sources.old)
            sources.old list.old result sources.new list.new }
        ensures value { FetchesThere operand (length list.old)
            (scene S.Storage A.Source P.Source self.old storage.old sources.old) result.result }
        ensures registers { self.new ≡ self.old }
        ensures storage { storage.new.beneath ≡ storage.old.beneath }
        ensures layer { LayerAfter (refuses_access operand (length list.old)) self.old.prefix
            storage.old storage.new }
        ensures order { OrderedIn
            (scene S.Storage A.Source P.Source self.old storage.old sources.old)
            (λ n. fetch_store_conditions n Fetch operand (length list.old))
            (λ n. value_found n Fetch operand) result.result }
        ensures law { AnswersFresh (fetches operand (length list.old))
            (scene S.Storage A.Source P.Source self.old storage.old sources.old) result.result
            (held A.Source P.Source sources.old) (held A.Source P.Source sources.new) }
    {
        let reached = self.accessed(storage, sources, Access::Fetch, operand, list);
        let result = match reached.result {
            Ok(real) => self.fetch_real(storage, real),
            Err(condition) => Err(condition),
        };
        Counted {
            result,
            count: reached.count,
        }
    }

    // Stores the doubleword at an address, by an access register. It is done exactly where no
    // condition of its table applies, and else the first that does is met.
    pub fn store<S: Storage, A: Source<AccessRegister>, P: Source<Paging>>(
        &mut self,
        storage: &mut Prefixed<S>,
        sources: &mut Sources<A, P>,
        operand: Operand,
        value: u64,
        list: &mut [u64],
    ) -> Counted<()>
        ensures makes { Makes A.Source P.Source (stores operand (length list.old))
            (scene S.Storage A.Source P.Source self.old storage.old sources.old)
            sources.old list.old result sources.new list.new }
        ensures done { StoresThere operand (length list.old)
            (scene S.Storage A.Source P.Source self.old storage.old sources.old) result.result }
        ensures registers { self.new ≡ self.old }
        ensures storage { S.view storage.new.beneath ≡ after_puts_under self.old.prefix
            (stored_word operand (length list.old) value
            (scene S.Storage A.Source P.Source self.old storage.old sources.old))
            (S.view storage.old.beneath) }
        ensures refused { OnErr result.result (storage.new.beneath ≡ storage.old.beneath) }
        ensures layer { LayerAfter (refuses_access operand (length list.old)) self.old.prefix
            storage.old storage.new }
        ensures order { OrderedIn
            (scene S.Storage A.Source P.Source self.old storage.old sources.old)
            (λ n. fetch_store_conditions n Store operand (length list.old))
            (λ _. tt) result.result }
        ensures law { AnswersFresh (stores operand (length list.old))
            (scene S.Storage A.Source P.Source self.old storage.old sources.old) result.result
            (held A.Source P.Source sources.old) (held A.Source P.Source sources.new) }
        ensures puts { StoresFresh operand (length list.old) value
            (scene S.Storage A.Source P.Source self.old storage.old sources.old)
            (held A.Source P.Source sources.old) }
    {
        let reached = self.accessed(storage, sources, Access::Store, operand, list);
        let result = match reached.result {
            Ok(real) => self.put(storage, real, value),
            Err(condition) => Err(condition),
        };
        Counted {
            result,
            count: reached.count,
        }
    }
}
