// A run over two sources that lie apart.
ghost use Rattle.std.specs.Prelude.{◌≡◌, ◌<◌, ◌≤◌, length, take, drop, MatchResult};
ghost use Rattle.arch.specs.declared.condition.Condition.TheVariants.{ShortList};
ghost use Rattle.machine.specs.Law.{Ran};

use crate::running::run;
use arch::condition::Condition;
use lookup::kinds::{AccessRegister, Paging};
use lookup::source::Source;
use machine::{Outcome, Request, Sources};
use storage::prefix::Prefixed;
use storage::storage::Storage;

// `run` over two sources that are lent each by itself. What it says of two that are one value it
// says of them.
pub fn run_lent<S: Storage, A: Source<AccessRegister>, P: Source<Paging>>(
    storage: &mut Prefixed<S>,
    access: &mut A,
    page: &mut P,
    calls: &[Request],
    outcomes: &mut [Outcome],
) -> Result<(), Condition>
    ensures law { MatchResult result
        (λ _. Ran A.Source P.Source (S.view storage.old.beneath)
        (record { access = access.old; page = page.old }) calls.now
        (take (length calls.now) outcomes.new) (S.view storage.new.beneath)
        (record { access = access.new; page = page.new }))
        (λ e. (e ≡ ShortList) × (length outcomes.old < length calls.now)) }
    ensures refused { MatchResult result
        (λ _. length calls.now ≤ length outcomes.old)
        (λ _. (storage.new ≡ storage.old) × (access.new ≡ access.old) × (page.new ≡ page.old)) }
    ensures outcomes { MatchResult result
        (λ _. drop (length calls.now) outcomes.new ≡ drop (length calls.now) outcomes.old)
        (λ _. outcomes.new ≡ outcomes.old) }
{
    let mut sources = Sources { access, page };
    run(storage, &mut sources, calls, outcomes)
}
