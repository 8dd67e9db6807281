// The reader and the writer of run texts: what a run is made of, in lines of fields.
#![tactic(auto)]

ghost use Rattle.std.specs.Prelude.{◌≡◌, length, take, IfOk, IfErr, OnErr};
ghost use Rattle.runtext.specs.Passes.{Filled};
ghost use Rattle.runtext.specs.Runs.{HasRoom, Spellable, Unspelt, lent};
ghost use Rattle.runtext.specs.Verdicts.{Only, Refused};
ghost use Rattle.runtext.specs.Writing.{ReadsBack, Unwritten, Written};

use arch::call::Call;
use arch::condition::Condition;
use arch::record::{BlockKey, Word};
use places::Places;
use run::Run;
use scan::{fill, judge};
use writing::write_for;

mod cut;
mod line;
mod number;
pub mod places;
mod progress;
pub mod run;
mod scan;
mod size;
mod text;
pub mod trip;
mod writing;

// The limits of a run text. With as many places of each sort as here, no text lacks one.

// The most bytes that a text has.
pub const BYTES: usize = 65536;

// The most doublewords that a run with a text has.
pub const WORDS: usize = 1024;

// The most block keys that a run with a text has.
pub const KEYS: usize = 256;

// More calls than any text has: a call's line has four bytes or more. They have no limit of their
// own.
pub const CALLS: usize = BYTES / 4;

// How many doublewords, keys and calls there are, or places for them.
#[derive(Clone, Copy, PartialEq, Eq, Debug)]
pub struct Counts {
    pub words: usize,
    pub keys: usize,
    pub calls: usize,
}

impl Counts {
    // As many as these slices have: the three that a `Run` has, and `Places` too.
    pub(crate) fn of(words: &[Word], keys: &[BlockKey], calls: &[Call]) -> Counts
        ensures words { result.words ≡ length words.now }
        ensures keys { result.keys ≡ length keys.now }
        ensures calls { result.calls ≡ length calls.now }
    {
        Counts {
            words: words.len(),
            keys: keys.len(),
            calls: calls.len(),
        }
    }
}

const NO_LINES: Counts = Counts {
    words: 0,
    keys: 0,
    calls: 0,
};

// Why a text is refused, and on which line, from 1.
#[derive(Clone, Copy, PartialEq, Eq, Debug)]
pub struct Refusal {
    pub condition: Condition,
    pub line: usize,
}

// The refusal of what is too much as a whole, and not on a line of its own.
const NO_ROOM: Refusal = Refusal {
    condition: Condition::TooMuch,
    line: 1,
};

// Puts the one run that has this text into the first places of each sort. Where no run that has
// places enough has it, nothing is altered.
pub fn read(text: &[u8], places: &mut Places<'_>) -> Result<Counts, Refusal>
    ensures accepted { IfOk result (Filled text.now places.old places.new) }
    ensures refused { IfErr result (Refused (lent places.old) text.now) }
    ensures single { IfErr result (Only (Refused (lent places.old) text.now)) }
    ensures complete { OnErr result (Unspelt (lent places.old) text.now) }
    ensures unaltered { OnErr result (places.new ≡ places.old) }
{
    if text.len() > BYTES {
        return Err(NO_ROOM);
    }
    judge(text, places.counts())?;
    Ok(fill(text, places))
}

// Writes the text of a run into the first bytes of a buffer, and says how many those are. Where the
// run has no text, or none that the buffer has room for, nothing is altered.
pub fn write(run: &Run<'_>, buffer: &mut [u8]) -> Result<usize, Refusal>
    ensures written { IfOk result (Written run.now buffer.old buffer.new) }
    ensures refused { IfErr result (Unwritten (length buffer.old) run.now) }
    ensures single { IfErr result (Only (Unwritten (length buffer.old) run.now)) }
    ensures complete { OnErr result (Spellable run.now → HasRoom (length buffer.old) run.now → ⊥) }
    ensures unaltered { OnErr result (buffer.new ≡ buffer.old) }
    ensures again { IfOk result (λ n. ReadsBack run.now (take n buffer.new)) }
{
    write_for(run, run.counts(), buffer)
}
