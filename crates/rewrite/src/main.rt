// Writes a run text out again: standard input has it, standard output gets the same bytes, or one
// line that says why it is refused, as in a listing.
#![tactic(auto)]

use arch::call::Call;
use arch::record::{BlockKey, Word};
use lines::RefusalLine;
use runtext::places::Places;
use runtext::trip::reopened;
use runtext::{BYTES, CALLS, KEYS, WORDS};
use std::io::Write;

fn rewrite(rt: &HostRuntime) -> anyhow::Result<()> {
    let heap = rt.alloc();
    // one byte more than the longest text: enough to know that it is too long
    let mut text = vec![in heap; 0u8; BYTES + 1]?;
    let mut copy = vec![in heap; 0u8; BYTES]?;
    // A listing lends its own as well: no crate below both has a heap.
    let mut words = vec![in heap; Word {
        address: 0,
        value: 0
    }; WORDS]?;
    let mut keys = vec![in heap; BlockKey { block: 0, key: 0 }; KEYS]?;
    let mut calls = vec![in heap; Call::SetPrefix { prefix: 0 }; CALLS]?;
    let length = input::text(&mut rt.stdin(), &mut text)?;
    let mut places = Places {
        words: &mut words,
        keys: &mut keys,
        calls: &mut calls,
    };
    match reopened(&text[..length], &mut places, &mut copy) {
        Ok(n) => {
            let mut out = rt.stdout();
            out.write_all(&copy[0..n])?;
        }
        Err(refusal) => rt.print(RefusalLine::from(refusal))?,
    }
    Ok(())
}

fn main(rt: HostRuntime) -> anyhow::Result<()> {
    rewrite(&rt)
}
