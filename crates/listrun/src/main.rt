// Lists a run: standard input has its text, standard output gets its listing.
#![tactic(auto)]

use machine::Sources;
use runtext::BYTES;

fn list(rt: &HostRuntime) -> anyhow::Result<()> {
    let heap = rt.alloc();
    // one byte more than the longest text: enough to know that it is too long
    let mut text = vec![in heap; 0u8; BYTES + 1]?;
    let length = input::text(&mut rt.stdin(), &mut text)?;
    let mut sources = Sources {
        access: listing::stack(),
        page: listing::stack(),
    };
    let listing = listing::list(heap, &text[..length], &mut sources)?;
    rt.print(&listing)?;
    Ok(())
}

fn main(rt: HostRuntime) -> anyhow::Result<()> {
    list(&rt)
}
