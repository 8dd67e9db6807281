// A source of answers for one kind of lookup: the walk itself, or a lookaside over another source.
ghost use Rattle.std.specs.Prelude.{◌≡◌, ◌+◌, ◌≤◌, length, Some, None, Option};
ghost use Rattle.arch.specs.Walks.{Traced, Gives};
ghost use Rattle.lookup.specs.Sources.{asked, none_is_not_some, Kept, Empty};

use crate::kind::Kind;
use crate::trace::Trace;
use arch::condition::Condition;
use storage::storage::Storage;

// What answers lookups of one kind, over a storage that it is lent for each. An ask needs room in
// its trace for as many addresses as the kind reads at most.
pub trait Source<K: Kind> {
    // For each key the answer that it would give without storage, or none.
    ghost shows: { Self → K.Key → Option K.Answer };

    // The pairs of key and answer that it keeps in any of its layers.
    ghost holds: { Self → K.Key → K.Answer → Type 0 };

    // What it may be after an ask for a key, by what each key's walk comes to, and after a purge. A
    // maker who leaves the displacement of answers open says as little here as may be told.
    ghost after_ask: { Self → (K.Key → Traced K.Answer) → K.Key → Self → Type 0 };

    ghost after_purge: { Self → Self → Type 0 };

    // Gives the shown answer and lists nothing; with none shown it gives the fresh result and lists
    // each address asked for. What it holds afterwards it held before, or is its key's fresh
    // answer.
    fn ask<S: Storage, T: Trace>(
        &mut self,
        storage: &S,
        key: K::Key,
        trace: &mut T,
    ) -> Result<K::Answer, Condition>
        requires { length (T.addresses trace.old) + K.most_reads ≤ T.room }
        ensures gives { Gives K.most_reads
            (asked (shows self.old key) (K.fresh (S.view storage.now).word key))
            (T.addresses trace.old) (T.addresses trace.new) result }
        ensures keeps { Kept K.fits (K.fresh (S.view storage.now).word) (holds self.old)
            (holds self.new) }
        ensures after { after_ask self.old (K.fresh (S.view storage.now).word) key self.new };

    // Forgets every pair.
    fn purge(&mut self)
        ensures empty { Empty (holds self.new) }
        ensures after { after_purge self.old self.new };

    // A pair shown is held.
    ghost shown_is_held: { (s : Self) (k : K.Key) (a : K.Answer)
        → shows s k ≡ Some a → holds s k a };
}

// The source that holds nothing: it walks the tables each time.
#[derive(Clone, Copy)]
pub struct TableWalk;

impl<K: Kind> Source<K> for TableWalk {
    ghost shows = { λ _ _. None };

    ghost holds = { λ _ _ _. ⊥ };

    ghost after_ask = { λ s _ _ t. t ≡ s };

    ghost after_purge = { λ s t. t ≡ s };

    ghost shown_is_held = { λ _ _ _ e. none_is_not_some e };

    fn ask<S: Storage, T: Trace>(
        &mut self,
        storage: &S,
        key: K::Key,
        trace: &mut T,
    ) -> Result<K::Answer, Condition> {
        K::walk(storage, key, trace)
    }

    fn purge(&mut self) {}
}

// A source that is lent is one: so two that lie apart, or one that several stacks share in turn, are
// lent to whoever asks. An ask and a purge leave the same loan, so that whoever lent the source finds
// it as they left it.
impl<K: Kind, B: Source<K>> Source<K> for &mut B {
    ghost shows = { λ s k. B.shows s.now k };

    ghost holds = { λ s k a. B.holds s.now k a };

    ghost after_ask = { λ s fresh k t. (t.ghost_name ≡ s.ghost_name)
        × B.after_ask s.now fresh k t.now };

    ghost after_purge = { λ s t. (t.ghost_name ≡ s.ghost_name) × B.after_purge s.now t.now };

    ghost shown_is_held = { λ s k a e. B.shown_is_held s.now k a e };

    fn ask<S: Storage, T: Trace>(
        &mut self,
        storage: &S,
        key: K::Key,
        trace: &mut T,
    ) -> Result<K::Answer, Condition> {
        (**self).ask(storage, key, trace)
    }

    fn purge(&mut self) {
        (**self).purge()
    }
}
