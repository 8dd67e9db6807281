// A kind of lookup: what it asks for and what it finds, how both are spelt in two words, and its
// walk.
ghost use Rattle.std.specs.Prelude.{◌≡◌, ℕ, ◌+◌, ◌≤◌, List, length, Option};
ghost use Rattle.arch.specs.Order.{Row, Ordered};
ghost use Rattle.arch.specs.Walks.{Walk, Traced, Gives, SeesOnlyItsTrace, over};
ghost use Rattle.lookup.specs.declared.words.Words.{Words};

use crate::trace::Trace;
use crate::words::Words;
use arch::condition::Condition;
use storage::storage::Storage;

// Lookups of one kind: a key is asked for, and its walk comes to an answer or to a condition.
pub trait Kind {
    // What is asked for.
    type Key: Copy;

    // What is found.
    type Answer: Copy;

    // What its walk over the doublewords of a storage comes to, and the addresses that it asks for.
    ghost fresh: { (ℕ → Option ℕ) → Self.Key → Traced Self.Answer };

    // The lookup as a tree of reads, and the limit that an address is listed below.
    ghost tree: { Self.Key → Walk Self.Answer };

    ghost limit: { ℕ };

    // Its conditions as a table, and what it finds where none applies.
    ghost conditions: { (ℕ → Option ℕ) → Self.Key → List Row };

    ghost finds: { (ℕ → Option ℕ) → Self.Key → Self.Answer };

    // It reads at most so many doublewords.
    ghost most_reads: { ℕ };

    // A key whose numbers have the widths that they are spelt with. Every key that code can hold is
    // one.
    ghost fits: { Self.Key → Type 0 };

    ghost key_words: { Self.Key → Words };

    ghost answer_words: { Self.Answer → Words };

    ghost answer_of: { Words → Self.Answer };

    // Walks the tables, noting each address asked for at the end of the trace. It comes to what it
    // finds exactly where no condition of its table applies, else to the first that does.
    fn walk<S: Storage, T: Trace>(
        storage: &S,
        key: Self::Key,
        trace: &mut T,
    ) -> Result<Self::Answer, Condition>
        requires { length (T.addresses trace.old) + most_reads ≤ T.room }
        ensures gives { Gives most_reads (fresh (S.view storage.now).word key)
            (T.addresses trace.old) (T.addresses trace.new) result }
        ensures order { Ordered (conditions (S.view storage.now).word key)
            (finds (S.view storage.now).word key) result };

    fn spell(key: Self::Key) -> Words
        ensures words { result ≡ key_words key }
        ensures fits { fits key };

    fn write(answer: Self::Answer) -> Words
        ensures { result ≡ answer_words answer };

    fn read(words: Words) -> Self::Answer
        ensures { result ≡ answer_of words };

    // Its walk is that over the tree. A read at the limit or past it comes to `Addressing` and is not
    // listed, one of an absent doubleword comes to it and is.
    ghost walks: { (word : ℕ → Option ℕ) (key : Self.Key)
        → fresh word key ≡ over limit word (tree key) };

    // It sees no more of a storage than it lists.
    ghost sees_only_its_trace: { (key : Self.Key) → SeesOnlyItsTrace (λ word. fresh word key) };

    // Keys have equal words exactly when they are equal.
    ghost distinct: { (k j : Self.Key) → fits k → fits j
        → (key_words k ≡ key_words j → k ≡ j) × (k ≡ j → key_words k ≡ key_words j) };

    // The words of an answer give it back.
    ghost answer_back: { (a : Self.Answer) → answer_of (answer_words a) ≡ a };
}
