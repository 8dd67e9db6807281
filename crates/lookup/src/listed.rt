// An ask over places of a lent list, whose length need not be known before it runs.
ghost use Rattle.std.specs.Prelude.{◌≡◌, ◌+◌, ◌≤◌, [], length};
ghost use Rattle.lookup.specs.Listed.{WritesList};
ghost use Rattle.lookup.specs.Sources.{asked, Kept};

use crate::kind::Kind;
use crate::source::Source;
use crate::trace::Trace;
use arch::condition::Condition;
use storage::storage::Storage;

// Asks a source, and writes each address asked for to the places of the list from the first unused
// one on, which are then used; no other place changes. They are noted in an empty trace on the way,
// which has them afterwards.
pub fn ask_listed<K: Kind, B: Source<K>, S: Storage, T: Trace>(
    source: &mut B,
    storage: &S,
    key: K::Key,
    trace: &mut T,
    list: &mut [u64],
    used: &mut usize,
) -> Result<K::Answer, Condition>
    requires empty { T.addresses trace.old ≡ [] }
    requires reads { K.most_reads ≤ T.room }
    requires places { used.old + K.most_reads ≤ length list.old }
    ensures gives { WritesList K.most_reads
        (asked (B.shows source.old key) (K.fresh (S.view storage.now).word key))
        list.old used.old list.new used.new result }
    ensures trace { T.addresses trace.new
        ≡ (asked (B.shows source.old key) (K.fresh (S.view storage.now).word key)).trace }
    ensures keeps { Kept K.fits (K.fresh (S.view storage.now).word) (B.holds source.old)
        (B.holds source.new) }
    ensures after { B.after_ask source.old (K.fresh (S.view storage.now).word) key source.new }
{
    let result = source.ask(storage, key, trace);
    let noted = trace.noted();
    let end = *used + noted.len();
    list[*used..end].copy_from_slice(noted);
    *used = end;
    result
}
