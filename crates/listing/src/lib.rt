// The listing of a run: a line for each call that says something, or the one line of a refused
// text.
#![tactic(auto)]

ghost use Rattle.std.specs.Prelude.{◌≡◌, ◌+◌, ◌^◌, ◌<◌, ◌≤◌, map, length, replicate, IfOk, string_bytes};
ghost use Rattle.lines.specs.Refusals.{refusal_line};
ghost use Rattle.listing.specs.Listings.{call_limit, places, RoomForAll, Recorded, ListsRun, Lists};
ghost use Rattle.lookaside.specs.Rows.{direct_rows, empty_row, round_robin_rows};
ghost use Rattle.runtext.specs.Runs.{Within, lent, run_in};
ghost use Rattle.machine.specs.declared.request.Request.TheVariants.{Line};

use arch::call::Call;
use arch::record::{BlockKey, Word};
use lines::RefusalLine;
use lookaside::direct_mapped::{DirectMapped, DirectMappedTable};
use lookaside::round_robin::{RoundRobin, RoundRobinTable};
use lookup::kinds::{AccessRegister, Paging};
use lookup::source::{Source, TableWalk};
use machine::{Outcome, Request, Sources};
use print::Listing;
use runtext::places::Places;
use runtext::{CALLS, Counts, KEYS, Refusal, WORDS};
use std::alloc::{AllocError, Global};
use storage::prefix::Prefixed;
use storage::sparse::Sparse;

mod print;

// What each source of the program `listrun` is: a direct-mapped lookaside over a round-robin one
// over the walk.
pub type Stack = DirectMapped<RoundRobin<TableWalk>>;

// One with every row of both tables empty, and the round-robin one's first row to be written next.
pub fn stack() -> Stack
    ensures direct { result.table.rows ≡ replicate direct_rows empty_row }
    ensures in_turn { (result.beneath.table.rows ≡ replicate round_robin_rows empty_row) ×
        (result.beneath.table.next ≡ 0) }
{
    DirectMapped {
        table: DirectMappedTable::new(),
        beneath: RoundRobin {
            table: RoundRobinTable::new(),
            beneath: TableWalk,
        },
    }
}

// The calls of a text's lines, as calls of the machine.
fn requests(heap: Global, calls: &[Call]) -> Result<Vec<Request>, AllocError>
    ensures { IfOk result (λ v. v.items ≡ map Line calls.now) }
{
    let mut requests = Vec::new(heap);
    for call in calls {
        requests.push(Request::Line(*call))?;
    }
    Ok(requests)
}

// Makes the calls of the run in the first places over its storage, and keeps the record of what
// came of each. The doublewords there are then as the calls left them.
fn record<A: Source<AccessRegister>, P: Source<Paging>>(
    heap: Global,
    places: Places<'_>,
    found: Counts,
    sources: &mut Sources<A, P>,
) -> Result<Vec<Outcome>, AllocError>
    requires { Within found (lent places) }
    ensures { IfOk result
        (λ os. Recorded A.Source P.Source
        (run_in places.entry found) os.items sources.old sources.new) }
{
    let Places { words, keys, calls } = places;
    let requests = requests(heap, &calls[..found.calls])?;
    let mut outcomes = vec![in heap; Outcome::Purged; found.calls]?;
    let mut storage = Prefixed::new(Sparse {
        words: &mut words[..found.words],
        keys: &keys[..found.keys],
    });
    match runs::run(&mut storage, sources, &requests, &mut outcomes) {
        Ok(()) => Ok(outcomes),
        // Places of outcomes are lent, and `run` refuses too few: here there is one for each call.
        Err(_) => unreachable(),
    }
}

// The listing of the run in the first places.
fn list_run<A: Source<AccessRegister>, P: Source<Paging>>(
    heap: Global,
    places: Places<'_>,
    found: Counts,
    sources: &mut Sources<A, P>,
) -> Result<String, AllocError>
    requires places { Within found (lent places) }
    requires lines { found.words + found.keys + 2 + found.calls < 2 ^ 64 }
    ensures { IfOk result
        (λ out. ListsRun A.Source P.Source (run_in places.entry found)
        (string_bytes out) sources.old sources.new) }
{
    let first_line = found.words + found.keys + 2;
    let outcomes = record(heap, places, found, sources)?;
    String::format(
        heap,
        Listing {
            first_line,
            outcomes: &outcomes,
        },
    )
}

// The listing of a refused text.
fn list_refusal(heap: Global, refusal: Refusal) -> Result<String, AllocError>
    ensures { IfOk result
        (λ out. string_bytes out ≡ refusal_line refusal.line refusal.condition 0) }
{
    String::format(heap, RefusalLine::from(refusal))
}

// The listing of a text, given places for all that it says.
fn list_within<A: Source<AccessRegister>, P: Source<Paging>>(
    heap: Global,
    text: &[u8],
    mut places: Places<'_>,
    sources: &mut Sources<A, P>,
) -> Result<String, AllocError>
    requires { length places.calls.now ≤ call_limit }
    ensures { IfOk result
        (λ out. Lists A.Source P.Source (lent places.entry) text.now
        (string_bytes out) sources.old sources.new) }
{
    match runtext::read(text, &mut places) {
        Ok(found) => list_run(heap, places, found, sources),
        Err(refusal) => list_refusal(heap, refusal),
    }
}

// The listing of a run text, over any two sources: of the run that it spells, or of its refusal.
// There are places for every run that has a text.
pub fn list<A: Source<AccessRegister>, P: Source<Paging>>(
    heap: Global,
    text: &[u8],
    sources: &mut Sources<A, P>,
) -> Result<String, AllocError>
    ensures lists { IfOk result
        (λ out. Lists A.Source P.Source places text.now (string_bytes out)
        sources.old sources.new) }
    ensures room { RoomForAll }
{
    // The program `rewrite` lends its own as well: no crate below both has a heap.
    let mut words = vec![in heap; Word {
        address: 0,
        value: 0
    }; WORDS]?;
    let mut keys = vec![in heap; BlockKey { block: 0, key: 0 }; KEYS]?;
    let mut calls = vec![in heap; Call::SetPrefix { prefix: 0 }; CALLS]?;
    let places = Places {
        words: &mut words,
        keys: &mut keys,
        calls: &mut calls,
    };
    list_within(heap, text, places, sources)
}
