// A whole run, from a new machine on.
ghost use Rattle.std.specs.Prelude.{◌≡◌, ◌<◌, ◌≤◌, length, take, drop, MatchResult};
ghost use Rattle.arch.specs.declared.condition.Condition.TheVariants.{ShortList};
ghost use Rattle.machine.specs.Law.{NothingElseMatters, Ran};

use crate::perform::answer;
use arch::condition::Condition;
use lookup::kinds::{AccessRegister, Paging};
use lookup::source::Source;
use machine::{Machine, Outcome, Request, Sources};
use storage::prefix::Prefixed;
use storage::storage::Storage;

// Works through a list of calls from a new machine on, and keeps the record of what came of each,
// over any storage and any two sources in any state. The law of every run holds of the record.
// Without a place for each outcome it is refused, and changes nothing.
pub fn run<S: Storage, A: Source<AccessRegister>, P: Source<Paging>>(
    storage: &mut Prefixed<S>,
    sources: &mut Sources<A, P>,
    calls: &[Request],
    outcomes: &mut [Outcome],
) -> Result<(), Condition>
    ensures law { MatchResult result
        (λ _. Ran A.Source P.Source (S.view storage.old.beneath) sources.old calls.now
        (take (length calls.now) outcomes.new) (S.view storage.new.beneath) sources.new)
        (λ e. (e ≡ ShortList) × (length outcomes.old < length calls.now)) }
    ensures alike { NothingElseMatters }
    ensures refused { MatchResult result
        (λ _. length calls.now ≤ length outcomes.old)
        (λ _. (storage.new ≡ storage.old) × (sources.new ≡ sources.old)) }
    ensures outcomes { MatchResult result
        (λ _. drop (length calls.now) outcomes.new ≡ drop (length calls.now) outcomes.old)
        (λ _. outcomes.new ≡ outcomes.old) }
{
    if outcomes.len() < calls.len() {
        return Err(Condition::ShortList);
    }
    let mut machine = Machine::new(sources);
    // An outcome's place is that of its call. `outcomes.iter_mut().zip(calls)` was tried and is not
    // proved: what the loop wrote is not known once an adapter of `iter_mut` has gone over it.
    for (i, call) in calls.iter().enumerate() {
        outcomes[i] = answer(&mut machine, storage, sources, *call);
    }
    Ok(())
}
