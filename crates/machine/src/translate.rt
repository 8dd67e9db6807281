// Translation, as a call.
ghost use Rattle.std.specs.Prelude.{◌≡◌, length};
ghost use Rattle.machine.specs.Calls.{Makes, translates, refuses_translation};
ghost use Rattle.machine.specs.Law.{AnswersAsItsLike, AnswersFresh};
ghost use Rattle.machine.specs.Orders.{OrderedIn, real_found, translation_conditions};
ghost use Rattle.machine.specs.Puts.{LayerAfter};
ghost use Rattle.machine.specs.Scene.{held, scene};

use crate::counted::Counted;
use crate::registers::Machine;
use crate::sources::{Operand, Sources};
use arch::call::Access;
use arch::condition::Condition;
use lookup::kinds::{AccessRegister, Paging};
use lookup::source::Source;
use lookup::trace::{CallTrace, PLACES};
use storage::prefix::Prefixed;
use storage::storage::Storage;

impl Machine {
    // Translates an address, for a fetch or a store, by an access register. The addresses asked for
    // are written to the first places of the list. It comes to an address exactly where no condition
    // of its table applies, and else to the first that does; where a source shows the answer of a
    // lookup, the table is without the conditions of that lookup.
    pub fn translate<S: Storage, A: Source<AccessRegister>, P: Source<Paging>>(
        &mut self,
        storage: &mut Prefixed<S>,
        sources: &mut Sources<A, P>,
        access: Access,
        operand: Operand,
        list: &mut [u64],
    ) -> Counted<u64>
        ensures makes { Makes A.Source P.Source (translates access operand (length list.old))
            (scene S.Storage A.Source P.Source self.old storage.old sources.old)
            sources.old list.old result sources.new list.new }
        ensures registers { self.new ≡ self.old }
        ensures storage { storage.new.beneath ≡ storage.old.beneath }
        ensures layer { LayerAfter (refuses_translation operand (length list.old)) self.old.prefix
            storage.old storage.new }
        ensures order { OrderedIn
            (scene S.Storage A.Source P.Source self.old storage.old sources.old)
            (λ n. translation_conditions n access operand (length list.old))
            (λ n. real_found n access operand) result.result }
        ensures law { AnswersFresh (translates access operand (length list.old))
            (scene S.Storage A.Source P.Source self.old storage.old sources.old) result.result
            (held A.Source P.Source sources.old) (held A.Source P.Source sources.new) }
        ensures alike { AnswersAsItsLike
            (scene S.Storage A.Source P.Source self.old storage.old sources.old)
            access operand (length list.old) }
    {
        if operand.register > 15 {
            return Counted::refused(Condition::BadNumber);
        }
        if list.len() < PLACES {
            return Counted::refused(Condition::ShortList);
        }
        storage.load_prefix(self.prefix);
        let mut trace = CallTrace::new();
        let real = self.reach(storage, sources, access, operand, &mut trace);
        Counted::of(real, &trace, list)
    }
}
