// The table of a round-robin lookaside: 32 rows, filled in turn.
ghost use Rattle.std.specs.Prelude.{◌≡◌, ◌+◌, ◌%◌, ◌<◌, length, replicate, slice_set, Some, None};
ghost use Rattle.lookaside.specs.Found.{first_found};
ghost use Rattle.lookaside.specs.Rows.{empty_row, first_answer, full_row, round_robin_rows, FirstRow, HasPair};

use crate::lookaside::Lookaside;
use crate::row::Row;
use crate::table::Table;
use lookup::words::Words;

const ROWS: usize = 32;

// 32 rows, and the number of the row that is written next, from 0 to 31.
#[derive(Drop)]
pub struct RoundRobinTable {
    pub rows: [Row; ROWS],
    pub next: usize,
    ghost within: { (next < round_robin_rows) × (length rows ≡ round_robin_rows) },
}

// A round-robin lookaside over a source.
pub type RoundRobin<B> = Lookaside<RoundRobinTable, B>;

impl RoundRobinTable {
    // With every row empty, and the first to be written next.
    pub fn new() -> Self
        ensures rows { result.rows ≡ replicate round_robin_rows empty_row }
        ensures next { result.next ≡ 0 }
    {
        RoundRobinTable {
            rows: [Row::empty(); ROWS],
            next: 0,
        }
    }
}

impl Table for RoundRobinTable {
    ghost finds = { λ t k. first_answer t.rows k };

    ghost has_pair = { λ t k a. HasPair t.rows k a };

    ghost after_note = { λ t k a u. (u.rows ≡ slice_set t.rows t.next (full_row k a))
        × (u.next ≡ (t.next + 1) % round_robin_rows) };

    ghost after_clear = { λ t. (t.rows ≡ replicate round_robin_rows empty_row) × (t.next ≡ 0) };

    ghost found_is_in_a_row = { λ t k a f. first_found t.rows k a f };

    // The first row that holds an answer for the key, from row 0 up, gives it.
    fn find(&self, key: Words) -> Option<Words>
        ensures result { result ≡ first_answer self.now.rows key }
        ensures first { (a : Words) → result ≡ Some a → FirstRow self.now.rows key a }
        ensures no_row { result ≡ None → (a : Words) → HasPair self.now.rows key a → ⊥ }
    {
        self.rows
            .iter()
            .find(|row| row.holds(key))
            .and_then(|row| row.answer())
    }

    fn note(&mut self, key: Words, answer: Words) {
        self.rows[self.next].set(key, answer);
        self.next = (self.next + 1) % ROWS;
    }

    fn clear(&mut self) {
        *self = RoundRobinTable::new();
    }
}
