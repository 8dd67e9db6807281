// The table of a direct-mapped lookaside: 64 rows, one for each key's words to fall on.
ghost use Rattle.std.specs.Prelude.{◌≡◌, ◌≢◌, ◌<◌, replicate, slice_index_or, slice_set, Some, None};
ghost use Rattle.lookaside.specs.Found.{at_found};
ghost use Rattle.lookaside.specs.Rows.{direct_row, direct_rows, empty_row, full_row, row_answer, HasPair};

use crate::lookaside::Lookaside;
use crate::row::Row;
use crate::table::Table;
use lookup::words::Words;

const ROWS: usize = 64;

// 64 rows. A key's words have one row, and what is noted there displaces what it held.
#[derive(Drop)]
pub struct DirectMappedTable {
    pub rows: [Row; ROWS],
}

// A direct-mapped lookaside over a source.
pub type DirectMapped<B> = Lookaside<DirectMappedTable, B>;

// The row of a key: the last six bits of the exclusive-or of its words.
fn row_of(key: Words) -> usize
    ensures row { result ≡ direct_row key }
    ensures below { result < direct_rows }
{
    (key.first ^ key.second) as usize % ROWS
}

impl DirectMappedTable {
    // With every row empty.
    pub fn new() -> Self
        ensures { result.rows ≡ replicate direct_rows empty_row }
    {
        DirectMappedTable {
            rows: [Row::empty(); ROWS],
        }
    }
}

impl Table for DirectMappedTable {
    ghost finds = { λ t k. row_answer (slice_index_or t.rows (direct_row k) empty_row) k };

    ghost has_pair = { λ t k a. HasPair t.rows k a };

    ghost after_note = { λ t k a u. u.rows ≡ slice_set t.rows (direct_row k) (full_row k a) };

    ghost after_clear = { λ t. t.rows ≡ replicate direct_rows empty_row };

    ghost found_is_in_a_row = { λ t k a f. at_found t.rows (direct_row k) k a f };

    fn find(&self, key: Words) -> Option<Words>
        ensures result { result ≡ row_answer
            (slice_index_or self.now.rows (direct_row key) empty_row) key }
        ensures row { direct_row key < direct_rows }
        ensures held { (a : Words) → result ≡ Some a
            → slice_index_or self.now.rows (direct_row key) empty_row ≡ full_row key a }
        ensures not_held { result ≡ None → (a : Words)
            → slice_index_or self.now.rows (direct_row key) empty_row ≢ full_row key a }
    {
        let row = self.rows[row_of(key)];
        if row.holds(key) { row.answer() } else { None }
    }

    fn note(&mut self, key: Words, answer: Words) {
        self.rows[row_of(key)].set(key, answer);
    }

    fn clear(&mut self) {
        *self = DirectMappedTable::new();
    }
}
