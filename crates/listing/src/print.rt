// The lines of a listing.
ghost use Rattle.std.specs.Prelude.{◌+◌, ◌^◌, ◌<◌, length, Some};
ghost use Rattle.listing.specs.Printing.{outcome_line, listing_of};

use lines::RefusalLine;
use machine::Outcome;
use std::fmt;
use std::fmt::{Display, Formatter, Write};

// What came of the call on a line of the text. It prints the whole line of the listing with its
// line end, or nothing where the listing has none.
#[derive(Clone, Copy)]
struct Numbered {
    line: usize,
    outcome: Outcome,
}

impl Display for Numbered {
    ghost output = { λ n. Some (outcome_line n.line n.outcome) };

    fn fmt<W: Write>(&self, f: &mut Formatter<W>) -> fmt::Result {
        let line = self.line;
        match self.outcome {
            Outcome::Translated(translated) => {
                let count = translated.count;
                match translated.result {
                    Ok(real) => writeln!(f, "{line}\tR\t{real:x}\t{count}"),
                    Err(condition) => RefusalLine {
                        line,
                        condition,
                        count,
                    }
                    .fmt(f),
                }
            }
            Outcome::Put(Ok(())) => writeln!(f, "{line}\tW"),
            Outcome::Purged => writeln!(f, "{line}\tZ"),
            Outcome::Loaded(Err(condition)) | Outcome::Put(Err(condition)) => {
                RefusalLine {
                    line,
                    condition,
                    count: 0,
                }
                .fmt(f)
            }
            // a load that is done goes without saying, and no line of a text asks for a fetch or a
            // store
            Outcome::Loaded(Ok(())) | Outcome::Fetched(_) | Outcome::Stored(_) => Ok(()),
        }
    }
}

// The lines of calls on one line of the text after another, the first of them on `first_line`.
#[derive(Clone, Copy)]
pub(crate) struct Listing<'a> {
    pub(crate) first_line: usize,
    pub(crate) outcomes: &'a [Outcome],
    ghost fits: { first_line + length outcomes.now < 2 ^ 64 },
}

impl Display for Listing<'_> {
    ghost output = { λ x. Some (listing_of x.first_line x.outcomes.now) };

    fn fmt<W: Write>(&self, f: &mut Formatter<W>) -> fmt::Result {
        // the number of a line is wanted itself
        for (i, outcome) in self.outcomes.iter().enumerate() {
            let numbered = Numbered {
                line: self.first_line + i,
                outcome: *outcome,
            };
            write!(f, "{numbered}")?;
        }
        Ok(())
    }
}
