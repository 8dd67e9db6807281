// What a run text is read from: readers that give one byte at a time, that give one message, that a signal interrupts,
// that fail in mid-text, and that have more than is wanted.
use runtext::BYTES;
use std::io;
use std::io::{ErrorKind, Read};
use std::process::Abort;
use std::test::Fail;

const TEXT: &str = "RUN\t1\nX\t2000\nZ\tT\n";

// Gives its bytes one at a time.
#[derive(Drop)]
struct OneByOne<'a>(&'a [u8]);

impl Read for OneByOne<'_> {
    fn read(&mut self, buf: &mut [u8]) -> io::Result<usize> {
        let most = buf.len().min(1);
        self.0.read(&mut buf[..most])
    }
}

// Gives its bytes as one message, and loses those that a read has no room for.
#[derive(Drop)]
struct Message<'a>(&'a [u8]);

impl Read for Message<'_> {
    fn read(&mut self, buf: &mut [u8]) -> io::Result<usize> {
        let got = self.0.read(buf)?;
        self.0 = b"";
        Ok(got)
    }
}

// Meets this error where its bytes end, as often as it is still to be met, and then gives the rest.
#[derive(Drop)]
struct Failing<'a> {
    bytes: &'a [u8],
    error: ErrorKind,
    times: usize,
    rest: &'a [u8],
}

impl Read for Failing<'_> {
    fn read(&mut self, buf: &mut [u8]) -> io::Result<usize> {
        if !self.bytes.is_empty() {
            return self.bytes.read(buf);
        }
        if self.times > 0 {
            self.times -= 1;
            return Err(io::Error::from(self.error));
        }
        self.rest.read(buf)
    }
}

fn reads<R: Read + Drop>(
    rt: &(impl Abort + AllocGlobal),
    mut reader: R,
    limit: usize,
    expected: &[u8],
) -> Result<(), Fail> {
    let mut text = vec![in rt.alloc(); 0u8; limit]?;
    let Ok(length) = input::text(&mut reader, &mut text) else {
        return Err(Fail::new("not read"));
    };
    assert_eq!(rt; &text[..length], expected);
    Ok(())
}

#[test]
fn one_byte_at_a_time(rt: HostRuntime) -> Result<(), Fail> {
    let bytes = TEXT.as_bytes();
    reads(&rt, OneByOne(bytes), bytes.len() + 1, bytes)?;
    reads(&rt, OneByOne(bytes), bytes.len(), bytes)?;
    reads(&rt, OneByOne(bytes), 6, &bytes[..6])?;
    reads(&rt, OneByOne(bytes), 0, b"")?;
    reads(&rt, OneByOne(b""), BYTES + 1, b"")
}

#[test]
fn no_more_than_the_limit(rt: HostRuntime) -> Result<(), Fail> {
    let bytes = vec![in rt.alloc(); b'Z'; 70000]?;
    reads(&rt, bytes.as_slice(), BYTES + 1, &bytes[..65537])?;
    reads(&rt, OneByOne(&bytes), BYTES + 1, &bytes[..65537])
}

#[test]
fn a_message_in_one_read(rt: HostRuntime) -> Result<(), Fail> {
    let bytes = vec![in rt.alloc(); b'Z'; 70000]?;
    reads(&rt, Message(&bytes[..6000]), BYTES + 1, &bytes[..6000])?;
    reads(&rt, Message(&bytes), BYTES + 1, &bytes[..65537])
}

#[test]
fn an_error_in_mid_text(rt: HostRuntime) -> Result<(), Fail> {
    let bytes = TEXT.as_bytes();
    let mut reader = Failing {
        bytes: &bytes[..6],
        error: ErrorKind::BrokenPipe,
        times: 1,
        rest: &bytes[6..],
    };
    let mut text = vec![in rt.alloc(); 0u8; BYTES + 1]?;
    match input::text(&mut reader, &mut text) {
        Ok(_) => Err(Fail::new("read past an error")),
        Err(error) => {
            assert_eq!(rt; error.kind(), ErrorKind::BrokenPipe);
            Ok(())
        }
    }
}

#[test]
fn an_interrupted_read(rt: HostRuntime) -> Result<(), Fail> {
    let bytes = TEXT.as_bytes();
    let reader = Failing {
        bytes: &bytes[..6],
        error: ErrorKind::Interrupted,
        times: 3,
        rest: &bytes[6..],
    };
    reads(&rt, reader, BYTES + 1, bytes)
}
