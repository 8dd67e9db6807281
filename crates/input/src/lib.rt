// What the programs share: a run text as it is read.
#![tactic(auto)]

ghost use Rattle.std.specs.Prelude.{◌≡◌, ◌≢◌, ◌<◌, ◌≤◌, IfOk, IfErr, IfSome, length, take};
ghost use Rattle.std.specs.Io.KnownBytes.{Consumes, IsAtEnd};
ghost use Rattle.std.specs.IoError.{error_kind};

use std::io;
use std::io::{ErrorKind, Read};

// Fills the buffer with the bytes that the reader gives, in order, until it ends or the buffer is
// full, and says how many. Each read is offered all the room that is left: a reader that gives
// messages may lose what a read has no room for. An interrupted read is tried again; any other error
// is passed on. (The library has no word for when a reader errs, so no clause says that it did:
// tests do.)
pub fn text<R: Read>(reader: &mut R, buffer: &mut [u8]) -> io::Result<usize>
    ensures within { IfOk result (λ n. n ≤ length buffer.old) }
    ensures bytes { IfOk result (λ n. IfSome (R.remaining reader.old)
        (λ xs. take n buffer.new ≡ take (length buffer.old) xs)) }
    ensures none_lost { IfOk result (λ n.
        Consumes (R.remaining reader.old) (R.remaining reader.new) (take n buffer.new)) }
    ensures retried { IfErr result (λ e. error_kind e ≢ ErrorKind.Interrupted) }
{
    let mut filled = 0;
    while filled < buffer.len() {
        let got = read_retrying(reader, &mut buffer[filled..])?;
        if got == 0 {
            break;
        }
        filled += got;
    }
    Ok(filled)
}

// One read, tried again where a signal interrupts it. Nothing says that signals end, so the tries are
// bounded.
fn read_retrying<R: Read>(reader: &mut R, room: &mut [u8]) -> io::Result<usize>
    ensures within { IfOk result (λ n. n ≤ length room.old) }
    ensures bytes { IfOk result (λ n.
        Consumes (R.remaining reader.old) (R.remaining reader.new) (take n room.new)) }
    ensures end { IfOk result (λ n.
        n ≡ 0 → 0 < length room.old → IsAtEnd (R.remaining reader.new)) }
    ensures retried { IfErr result (λ e. error_kind e ≢ ErrorKind.Interrupted) }
{
    for _ in 0..u64::MAX {
        match reader.read(room) {
            Err(error) if error.kind() == ErrorKind::Interrupted => {}
            other => return other,
        }
    }
    Err(io::Error::from(ErrorKind::TimedOut))
}
