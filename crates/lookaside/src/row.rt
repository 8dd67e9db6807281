// A row of a table: the words of a key and of its answer, or nothing.
ghost use Rattle.std.specs.Prelude.{◌≡◌};
ghost use Rattle.lookaside.specs.Rows.{answer_of, empty_row, full_row, matches};

use lookup::words::Words;

// The words of a key, and those of its answer.
#[derive(Clone, Copy, PartialEq, Eq, Debug)]
pub struct Entry {
    pub key: Words,
    pub answer: Words,
}

// A row is empty or has an entry.
#[derive(Clone, Copy, PartialEq, Eq, Debug)]
pub struct Row {
    pub entry: Option<Entry>,
}

impl Row {
    // A row that matches no key, not even one whose words are both zero.
    pub fn empty() -> Self
        ensures { result ≡ empty_row }
    {
        Row { entry: None }
    }

    // Whether it holds an answer for the key with these words.
    pub fn holds(self, key: Words) -> bool
        ensures { result ≡ matches key self }
    {
        matches!(self.entry, Some(entry) if entry.key == key)
    }

    // The words of the answer that it holds, for whichever key.
    pub fn answer(self) -> Option<Words>
        ensures { result ≡ answer_of self }
    {
        self.entry.map(|entry| entry.answer)
    }

    // Holds this answer for this key from now on.
    pub fn set(&mut self, key: Words, answer: Words)
        ensures { self.new ≡ full_row key answer }
    {
        self.entry = Some(Entry { key, answer });
    }
}
