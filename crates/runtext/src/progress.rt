// How far a run has come, line after line, whether it is read or written.
ghost use Rattle.std.specs.Prelude.{◌≡◌, ◌+◌, ◌≤◌, Decides, MatchOption};
ghost use Rattle.std.specs.Option.{option_map};
ghost use Rattle.runtext.specs.Lines.{kind_of, Sound};
ghost use Rattle.runtext.specs.Passes.{Steps, one_more, seen};
ghost use Rattle.runtext.specs.Runs.{byte_limit};
ghost use Rattle.runtext.specs.Verdicts.{Full, Late, Blames, first_field};
ghost use Rattle.runtext.specs.Writing.{Faulty};

use crate::cut::cut;
use crate::line::{Kind, LINE_END, Letter, Line, TAB, line_of, lone, sound};
use crate::{Counts, KEYS, WORDS};
use arch::condition::Condition;

// The places that there are for a run, and the lines of it that were found.
#[derive(Clone, Copy)]
pub(crate) struct Progress {
    pub(crate) places: Counts,
    pub(crate) found: Counts,
}

impl Progress {
    // With one more line.
    pub(crate) fn and(self, line: Line) -> Progress
        requires { self.found.words + self.found.keys + self.found.calls ≤ byte_limit }
        ensures { result ≡ record { places = self.places; found = one_more self.found line } }
    {
        let found = match line {
            Line::Doubleword(_) => Counts {
                words: self.found.words + 1,
                ..self.found
            },
            Line::Key(_) => Counts {
                keys: self.found.keys + 1,
                ..self.found
            },
            Line::Call(_) => Counts {
                calls: self.found.calls + 1,
                ..self.found
            },
        };
        Progress { found, ..self }
    }

    // The number of the line that follows the header and these lines.
    pub(crate) fn next_line(self) -> usize
        requires { self.found.words + self.found.keys + self.found.calls ≤ byte_limit }
        ensures { result ≡ self.found.words + self.found.keys + self.found.calls + 2 }
    {
        self.found.words + self.found.keys + self.found.calls + 2
    }

    // Whether no place is left for a line of this kind.
    fn full(self, kind: Kind) -> bool
        ensures { Decides result (Full self.places self.found kind) }
    {
        match kind {
            Kind::Doubleword => self.places.words.min(WORDS) <= self.found.words,
            Kind::Key => self.places.keys.min(KEYS) <= self.found.keys,
            Kind::Call(_) => self.places.calls <= self.found.calls,
        }
    }

    // Doublewords stand before keys, and these before calls.
    fn late(self, kind: Kind) -> bool
        ensures { Decides result (Late self.found kind) }
    {
        match kind {
            Kind::Doubleword => self.found.keys > 0 || self.found.calls > 0,
            Kind::Key => self.found.calls > 0,
            Kind::Call(_) => false,
        }
    }

    // Why a line may not come next in a run that is written, if so.
    pub(crate) fn fault(self, line: Line) -> Option<Condition>
        ensures { MatchOption result
            (Sound line × (Full self.places self.found (kind_of line) → ⊥))
            (Faulty self.places self.found line) }
    {
        if self.full(Kind::from(line)) {
            Some(Condition::TooMuch)
        } else if sound(line) {
            None
        } else {
            Some(Condition::BadText)
        }
    }

    // Why the line that `rest` begins with is refused.
    pub(crate) fn blame(self, rest: &[u8]) -> Condition
        ensures { Blames self.places self.found (first_field rest.now) result }
    {
        let (line, _) = cut(rest, LINE_END);
        let (first, _) = cut(line, TAB);
        let Some(letter) = lone(first) else {
            return Condition::BadText;
        };
        let Some(kind) = Kind::of_letter(letter) else {
            return Condition::BadText;
        };
        if self.full(kind) {
            Condition::TooMuch
        } else {
            Condition::BadText
        }
    }

    // The line that `rest` begins with, where it goes on with the run, and what follows it.
    pub(crate) fn step<'a>(self, rest: &'a [u8]) -> Option<(Line, &'a [u8])>
        ensures { Steps self.places self.found rest.now (option_map seen result) }
    {
        let (line, after) = cut(rest, LINE_END);
        let (first, fields) = cut(line, TAB);
        let letter = lone(first)?;
        let kind = Kind::of_letter(letter)?;
        if self.full(kind) || self.late(kind) {
            return None;
        }
        let line = line_of(kind, fields?)?;
        Some((line, after?))
    }
}
