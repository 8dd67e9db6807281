// A run as it is lent: its doublewords, its keys and its calls, each sort in a slice.
ghost use Rattle.std.specs.Prelude.{◌≡◌};
ghost use Rattle.runtext.specs.Runs.{counts, lines, lines_left};

use crate::Counts;
use crate::line::Line;
use arch::call::Call;
use arch::record::{BlockKey, Word};
use std::marker::Model;
use std::slice::Iter;

// A run of any length, whether it has a text or not. The lines of its text come in this order.
#[derive(Drop)]
pub struct Run<'a> {
    pub words: &'a [Word],
    pub keys: &'a [BlockKey],
    pub calls: &'a [Call],
}

impl<'a> Model for Run<'a> {
    ghost use Rattle.runtext.specs.Runs.{Run as RunValue};

    ghost Value = { RunValue };

    ghost view = { λ r. record { words = r.words.now; keys = r.keys.now; calls = r.calls.now } };
}

impl<'a> Run<'a> {
    // How many of each sort it has.
    pub fn counts(&self) -> Counts
        ensures { result ≡ counts self.now }
    {
        Counts::of(self.words, self.keys, self.calls)
    }

    // The lines of its text after the first.
    pub(crate) fn lines(&self) -> Lines<'a>
        ensures { lines_left result ≡ lines self.now }
    {
        Lines {
            words: self.words.iter(),
            keys: self.keys.iter(),
            calls: self.calls.iter(),
        }
    }
}

// The lines of a run that are left.
#[derive(Drop)]
pub(crate) struct Lines<'a> {
    words: Iter<'a, Word>,
    keys: Iter<'a, BlockKey>,
    calls: Iter<'a, Call>,
}

impl Iterator for Lines<'_> {
    type Item = Line;

    ghost use Rattle.std.specs.Iterator.{YieldsFirst, item_count};

    ghost next_gives = { YieldsFirst lines_left };

    ghost remaining = { item_count lines_left };

    fn next(&mut self) -> Option<Line> {
        if let Some(word) = self.words.next() {
            return Some(Line::Doubleword(*word));
        }
        if let Some(key) = self.keys.next() {
            return Some(Line::Key(*key));
        }
        let call = self.calls.next()?;
        Some(Line::Call(*call))
    }
}
