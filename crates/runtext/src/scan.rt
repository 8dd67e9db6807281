// The two passes over a text: the first judges it, the second fills the places that are lent.
ghost use Rattle.std.specs.Prelude.{◌++◌, ◌≤◌, length, IfErr, OnErr, OnOk};
ghost use Rattle.std.specs.Option.{option_map};
ghost use Rattle.runtext.specs.Passes.{Filled};
ghost use Rattle.runtext.specs.Reading.{Reads};
ghost use Rattle.runtext.specs.Runs.{Spelt, Unspelt, byte_limit, header, lent};
ghost use Rattle.runtext.specs.Verdicts.{BadLine};

use crate::line::FIRST_LINE;
use crate::places::Places;
use crate::progress::Progress;
use crate::{Counts, NO_LINES, Refusal};

// What follows the first line of a run text, where a text begins with it.
fn after_header(text: &[u8]) -> Option<&[u8]>
    ensures { Reads (option_map (λ x. x.now) result) (λ _. Unit {0}) (λ x. header ++ x) text.now }
{
    text.strip_prefix(FIRST_LINE)
}

// Whether some run with these places has this text.
pub(crate) fn judge(text: &[u8], places: Counts) -> Result<(), Refusal>
    requires { length text.now ≤ byte_limit }
    ensures spelt { OnOk result (Spelt places text.now) }
    ensures bad { IfErr result (BadLine places text.now) }
    ensures complete { OnErr result (Unspelt places text.now) }
{
    let mut so_far = Progress {
        places,
        found: NO_LINES,
    };
    let Some(mut rest) = after_header(text) else {
        return Err(Refusal {
            condition: so_far.blame(text),
            line: 1,
        });
    };
    // No iterator over the lines: whether one may come hangs on those before it.
    while let Some((line, after)) = so_far.step(rest) {
        so_far = so_far.and(line);
        rest = after;
    }
    if rest.is_empty() {
        return Ok(());
    }
    Err(Refusal {
        condition: so_far.blame(rest),
        line: so_far.next_line(),
    })
}

// Puts the run that has this text into the places that are lent.
pub(crate) fn fill(text: &[u8], places: &mut Places<'_>) -> Counts
    requires short { length text.now ≤ byte_limit }
    requires accepted { Spelt (lent places.old) text.now }
    ensures { Filled text.now places.old places.new result }
{
    let mut so_far = Progress {
        places: places.counts(),
        found: NO_LINES,
    };
    let Some(mut rest) = after_header(text) else {
        return so_far.found;
    };
    // As in `judge`.
    while let Some((line, after)) = so_far.step(rest) {
        places.put(line, so_far.found);
        so_far = so_far.and(line);
        rest = after;
    }
    so_far.found
}
