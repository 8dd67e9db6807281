// The round trips, from a text to its run and back, and from a run to its text and back.
ghost use Rattle.std.specs.Prelude.{◌≡◌, ℕ, ◌≤◌, length, IfOk, IfErr, OnErr, OnOk};
ghost use Rattle.runtext.specs.Passes.{Filled};
ghost use Rattle.runtext.specs.Runs.{HasRoom, Readable, Unspelt, lent, spell};
ghost use Rattle.runtext.specs.Verdicts.{Only};
ghost use Rattle.runtext.specs.Writing.{RefusedIn, Reopened, Restored, Written};

use crate::places::Places;
use crate::run::Run;
use crate::text::lay;
use crate::writing::write_for;
use crate::{Counts, NO_ROOM, Refusal, read};

// Reads a text and writes its run out again into a buffer: the same bytes. Where the text is
// refused or the buffer is shorter, nothing is altered.
pub fn reopened(text: &[u8], places: &mut Places<'_>, copy: &mut [u8]) -> Result<usize, Refusal>
    ensures same { IfOk result (Reopened text.now copy.old copy.new) }
    ensures filled { OnOk result ((m : Counts) × Filled text.now places.old places.new m) }
    ensures refused { IfErr result (RefusedIn (length copy.old) (lent places.old) text.now) }
    ensures single { IfErr result (Only (RefusedIn (length copy.old) (lent places.old) text.now)) }
    ensures complete { OnErr result
        (length text.now ≤ length copy.old → Unspelt (lent places.old) text.now) }
    ensures unaltered { OnErr result ((places.new ≡ places.old) × (copy.new ≡ copy.old)) }
{
    if copy.len() < text.len() {
        return Err(NO_ROOM);
    }
    let found = read(text, places)?;
    // What was read is written as it stands: nothing of it is to be judged again.
    Ok(lay(&places.run(found), copy))
}

// Writes a run out into a buffer and reads it from there again: the same run. Where its text is
// refused, for the buffer or for the places that it is read into, nothing is altered.
pub fn restored(
    run: &Run<'_>,
    buffer: &mut [u8],
    places: &mut Places<'_>,
) -> Result<Counts, Refusal>
    ensures same { IfOk result (Restored run.now places.old places.new) }
    ensures written { OnOk result ((k : ℕ) × Written run.now buffer.old buffer.new k) }
    ensures refused { IfErr result
        (RefusedIn (length buffer.old) (lent places.old) (spell run.now)) }
    ensures single { IfErr result
        (Only (RefusedIn (length buffer.old) (lent places.old) (spell run.now))) }
    ensures complete { OnErr result
        (Readable (lent places.old) run.now → HasRoom (length buffer.old) run.now → ⊥) }
    ensures unaltered { OnErr result ((buffer.new ≡ buffer.old) × (places.new ≡ places.old)) }
{
    let n = write_for(run, places.counts(), buffer)?;
    read(&buffer[0..n], places)
}
