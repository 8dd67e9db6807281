// A table of rows, by what it finds and what its rows hold.
ghost use Rattle.std.specs.Prelude.{◌≡◌, ◌⊎◌, Some, None, Option};
ghost use Rattle.lookup.specs.declared.words.Words.{Words};

use lookup::words::Words;

// Rows of pairs, of a key's words and its answer's. It gives at most one answer for a key.
pub trait Table {
    // For the words of a key, the words of the answer that it gives, or none.
    ghost finds: { Self → Words → Option Words };

    // The pairs of words in its rows.
    ghost has_pair: { Self → Words → Words → Type 0 };

    // What it is after a pair is noted, row by row, and after it is cleared.
    ghost after_note: { Self → Words → Words → Self → Type 0 };

    ghost after_clear: { Self → Type 0 };

    // The words of the answer that it finds for a key, or None.
    fn find(&self, key: Words) -> Option<Words>
        ensures { result ≡ finds self.now key };

    // Writes a pair into the row that its rule names; what was there is displaced.
    fn note(&mut self, key: Words, answer: Words)
        ensures rows { after_note self.old key answer self.new }
        ensures pairs { (k a : Words) → has_pair self.new k a
            → has_pair self.old k a ⊎ ((k ≡ key) × (a ≡ answer)) }
        ensures found { finds self.old key ≡ None → finds self.new key ≡ Some answer };

    // Empties every row.
    fn clear(&mut self)
        ensures rows { after_clear self.new }
        ensures none { (k a : Words) → has_pair self.new k a → ⊥ }
        ensures nothing_found { (k : Words) → finds self.new k ≡ None };

    // A pair found is in a row.
    ghost found_is_in_a_row: { (t : Self) (k a : Words) → finds t k ≡ Some a → has_pair t k a };
}
