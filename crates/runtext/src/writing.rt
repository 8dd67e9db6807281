// A run on its way out: it is judged, and then its text is laid into a buffer.
ghost use Rattle.std.specs.Prelude.{◌≡◌, ◌≤◌, length, Decides, IfOk, IfErr, OnErr, OnOk};
ghost use Rattle.runtext.specs.Runs.{HasRoom, Readable, byte_limit, spell};
ghost use Rattle.runtext.specs.Verdicts.{BadLine, Only};
ghost use Rattle.runtext.specs.Writing.{RefusedIn, Written};

use crate::line::FIRST_LINE;
use crate::progress::Progress;
use crate::run::Run;
use crate::size::line_size;
use crate::text::lay;
use crate::{BYTES, Counts, NO_LINES, NO_ROOM, Refusal};

// Whether the text of a run has no more than so many bytes. A run may be of any length: what comes
// after the line with which it has more is not looked at.
fn fits(run: &Run<'_>, most: usize) -> bool
    requires { most ≤ byte_limit }
    ensures { Decides result (HasRoom most run.now) }
{
    let mut size = FIRST_LINE.len();
    for line in run.lines() {
        if size > most {
            return false;
        }
        size += line_size(line);
    }
    size <= most
}

// Whether a run has a text that a reader with these places accepts, where it is no longer than a
// text may be.
fn judge(run: &Run<'_>, places: Counts) -> Result<(), Refusal>
    requires { HasRoom byte_limit run.now }
    ensures readable { OnOk result (Readable places run.now) }
    ensures bad { IfErr result (BadLine places (spell run.now)) }
    ensures complete { OnErr result (Readable places run.now → ⊥) }
{
    let mut so_far = Progress {
        places,
        found: NO_LINES,
    };
    for line in run.lines() {
        if let Some(condition) = so_far.fault(line) {
            return Err(Refusal {
                condition,
                line: so_far.next_line(),
            });
        }
        so_far = so_far.and(line);
    }
    Ok(())
}

// Writes the text of a run into the first bytes of a buffer, where that has room for it and a
// reader with these places accepts it, and says how many those are. Otherwise nothing is altered.
pub(crate) fn write_for(run: &Run<'_>, places: Counts, buffer: &mut [u8]) -> Result<usize, Refusal>
    ensures written { IfOk result (Written run.now buffer.old buffer.new) }
    ensures readable { OnOk result (Readable places run.now) }
    ensures refused { IfErr result (RefusedIn (length buffer.old) places (spell run.now)) }
    ensures single { IfErr result (Only (RefusedIn (length buffer.old) places (spell run.now))) }
    ensures complete { OnErr result
        (Readable places run.now → HasRoom (length buffer.old) run.now → ⊥) }
    ensures unaltered { OnErr result (buffer.new ≡ buffer.old) }
{
    if !fits(run, BYTES.min(buffer.len())) {
        return Err(NO_ROOM);
    }
    judge(run, places)?;
    Ok(lay(run, buffer))
}
