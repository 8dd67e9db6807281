// The places for a run, as they are lent: doublewords, keys and calls, each sort in a slice.
ghost use Rattle.std.specs.Prelude.{◌≡◌};
ghost use Rattle.runtext.specs.Lines.{kind_of};
ghost use Rattle.runtext.specs.Passes.{PutIn, SamePlaces};
ghost use Rattle.runtext.specs.Runs.{Within, lent, run_in};
ghost use Rattle.runtext.specs.Verdicts.{Full};

use crate::Counts;
use crate::line::Line;
use crate::run::Run;
use arch::call::Call;
use arch::record::{BlockKey, Word};

// The first places of each sort get what a text says.
#[derive(Drop)]
pub struct Places<'a> {
    pub words: &'a mut [Word],
    pub keys: &'a mut [BlockKey],
    pub calls: &'a mut [Call],
}

impl Places<'_> {
    // How many there are of each sort.
    pub fn counts(&self) -> Counts
        ensures { result ≡ lent self.now }
    {
        Counts::of(self.words, self.keys, self.calls)
    }

    // The run in the first places, as many of each sort.
    pub fn run(&self, n: Counts) -> Run<'_>
        requires { Within n (lent self.now) }
        ensures { result ≡ run_in self.now n }
    {
        Run {
            words: &self.words[..n.words],
            keys: &self.keys[..n.keys],
            calls: &self.calls[..n.calls],
        }
    }

    // Puts a line into the first place of its sort that is free. The places are lent, so that no
    // `push` can make one.
    pub(crate) fn put(&mut self, line: Line, found: Counts)
        requires { Full (lent self.old) found (kind_of line) → ⊥ }
        ensures put { PutIn line found self.old self.new }
        ensures same { SamePlaces self.old self.new }
    {
        match line {
            Line::Doubleword(word) => self.words[found.words] = word,
            Line::Key(key) => self.keys[found.keys] = key,
            Line::Call(call) => self.calls[found.calls] = call,
        }
    }
}
