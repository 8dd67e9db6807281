// The steps that both lookups are made of. Storage and trace go side by side through them: a struct
// of both borrows is no plainer, since each step would have to say what it leaves of each.
ghost use Rattle.std.specs.Prelude.{◌≡◌, ◌^◌, ◌<◌, ◌≤◌, length};
ghost use Rattle.arch.specs.Walks.{Walks, read as reading};
ghost use Rattle.lookup.specs.Checks.{checked};

use crate::trace::Trace;
use arch::condition::Condition;
use storage::storage::Storage;

// Reads one doubleword of a table. An address that reaches the limit is refused and not listed; any
// other is listed, also where its doubleword is absent.
pub(crate) fn read<S: Storage, T: Trace>(
    storage: &S,
    at: u128,
    limit: u128,
    trace: &mut T,
) -> Result<u64, Condition>
    requires limit { limit ≤ 2 ^ 64 }
    requires room { length (T.addresses trace.old) < T.room }
    ensures { Walks 1 limit (S.view storage.now).word (reading at)
        (T.addresses trace.old) (T.addresses trace.new) result }
{
    if at >= limit {
        return Err(Condition::Addressing);
    }
    let address = at as u64;
    trace.note(address);
    storage.fetch(address).ok_or(Condition::Addressing)
}

// Meets a condition where it applies.
pub fn check(condition: Condition, applies: bool) -> Result<(), Condition>
    ensures { result ≡ checked condition applies }
{
    if applies { Err(condition) } else { Ok(()) }
}
