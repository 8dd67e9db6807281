// What the lines of a listing are made of, for all that print one.
#![tactic(auto)]

ghost use Rattle.std.specs.Prelude.{◌≡◌, Some};
ghost use Rattle.lines.specs.Refusals.{refusal_line};

use arch::condition::Condition;
use runtext::Refusal;
use std::fmt;
use std::fmt::{Display, Formatter, Write};

// The line of a text, or of a call of it, that is refused. The count is of the doublewords that
// were asked for before.
#[derive(Clone, Copy)]
pub struct RefusalLine {
    pub line: usize,
    pub condition: Condition,
    pub count: usize,
}

// The line of a refused text, of which no call is made.
impl From<Refusal> for RefusalLine {
    ghost from_gives = { λ refusal l. l ≡ record {
      line = refusal.line;
      condition = refusal.condition;
      count = 0;
    } };

    fn from(refusal: Refusal) -> RefusalLine {
        RefusalLine {
            line: refusal.line,
            condition: refusal.condition,
            count: 0,
        }
    }
}

impl Display for RefusalLine {
    ghost output = { λ x. Some (refusal_line x.line x.condition x.count) };

    fn fmt<W: Write>(&self, f: &mut Formatter<W>) -> fmt::Result {
        let RefusalLine {
            line,
            condition,
            count,
        } = *self;
        writeln!(f, "{line}\tE\t{condition}\t{count}")
    }
}
