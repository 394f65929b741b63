//! Readers and writers that transfer few bytes at a time, are interrupted, and fail.

use rly_daemon_reply::{StreamFault, read_some, write_whole};
use std::alloc::Global;
use std::io;
use std::io::{Error, ErrorKind, Read, Write};
use std::process::Abort;

/// Interrupts before each call that is made.
#[derive(Drop)]
struct Interrupts {
    each: u32,
    left: u32,
}

impl Interrupts {
    /// Makes this many.
    fn new(each: u32) -> Interrupts {
        Interrupts { each, left: each }
    }

    /// Fails, if the call is to be interrupted once more.
    fn next(&mut self) -> io::Result<()> {
        if self.left == 0 {
            self.left = self.each;
            return Ok(());
        }
        self.left -= 1;
        Err(Error::from(ErrorKind::Interrupted))
    }
}

/// A reader that returns its bytes one at a time, interrupted before each, and then fails.
#[derive(Drop)]
struct Failing<'a> {
    bytes: &'a [u8],
    interrupts: Interrupts,
}

impl Read for Failing<'_> {
    fn read(&mut self, buffer: &mut [u8]) -> io::Result<usize> {
        self.interrupts.next()?;
        let Some((first, rest)) = self.bytes.split_first() else {
            return Err(Error::from(ErrorKind::TimedOut));
        };
        if buffer.is_empty() {
            return Ok(0);
        }
        buffer[0] = *first;
        self.bytes = rest;
        Ok(1)
    }
}

/// A writer that accepts a number of bytes, three at a time and interrupted before each, and then fails or accepts
/// none.
#[derive(Drop)]
struct Full {
    written: Vec<u8>,
    room: usize,
    interrupts: Interrupts,
    fails: bool,
}

impl Write for Full {
    fn write(&mut self, text: &[u8]) -> io::Result<usize> {
        self.interrupts.next()?;
        let count = text.len().min(3).min(self.room);
        if count == 0 && self.fails {
            return Err(Error::from(ErrorKind::TimedOut));
        }
        self.written.extend_from_slice(&text[..count])?;
        self.room -= count;
        Ok(count)
    }

    fn flush(&mut self) -> io::Result<()> {
        Ok(())
    }
}

/// A reader with a text returns it at once, to a buffer that has room for it, and then nothing.
fn expect_text<R: Abort>(rt: &R, alloc: Global, text: &[u8], room: usize) {
    let mut reader = text;
    let mut buffer = vec![in alloc; 0u8; room].expect(rt, "memory");
    expect!(*rt; read_some(&mut reader, &mut buffer) == Ok(text.len()));
    expect!(*rt; buffer.starts_with(text));
    expect!(*rt; read_some(&mut reader, &mut buffer) == Ok(0));
}

/// A text of this length fills a buffer.
fn expect_filled<R: Abort>(rt: &R, alloc: Global, length: usize) {
    let text = vec![in alloc; b'a'; length].expect(rt, "memory");
    expect_text(rt, alloc, &text, length);
}

#[test]
fn what_there_is_is_read(rt: HostRuntime) {
    expect_text(&rt, rt.alloc(), b"take", 8);
    for length in [0, 1, 70_000, 1_100_000] {
        expect_filled(&rt, rt.alloc(), length);
    }
}

/// Returns the one byte of a read, however often it is interrupted.
fn byte_of<R: Abort>(rt: &R, reader: &mut Failing) -> Result<u8, StreamFault> {
    let mut buffer = [0u8; 8];
    let count = read_some(reader, &mut buffer)?;
    expect!(*rt; count == 1);
    Ok(buffer[0])
}

/// Two bytes are read, and then a fault is returned.
fn expect_two_bytes<R: Abort>(rt: &R, reader: &mut Failing) {
    expect!(*rt; byte_of(rt, reader) == Ok(b'o'));
    expect!(*rt; byte_of(rt, reader) == Ok(b'k'));
    expect!(*rt; byte_of(rt, reader) == Err(StreamFault::Input));
}

/// The number of interrupts of each call.
const OFTEN: [u32; 3] = [0, 1, 100_000];

#[test]
fn an_interrupted_read_is_made_again(rt: HostRuntime) {
    for each in OFTEN {
        let interrupts = Interrupts::new(each);
        let mut reader = Failing {
            bytes: b"ok",
            interrupts,
        };
        expect_two_bytes(&rt, &mut reader);
    }
}

/// Makes a writer with this much room.
fn writer(alloc: Global, room: usize, each: u32, fails: bool) -> Full {
    Full {
        written: Vec::new(alloc),
        room,
        interrupts: Interrupts::new(each),
        fails,
    }
}

/// Three texts are written whole, one of them empty.
fn expect_all<R: Abort>(rt: &R, writer: &mut Full) {
    for text in [b"hop 1 taken 6".as_slice(), b"", b" end"] {
        expect!(*rt; write_whole(writer, text) == Ok(()));
    }
    expect!(*rt; writer.written.as_slice() == b"hop 1 taken 6 end".as_slice());
}

#[test]
fn all_is_written(rt: HostRuntime) {
    for each in OFTEN {
        expect_all(&rt, &mut writer(rt.alloc(), 20, each, true));
    }
}

/// A text of this length is written, three bytes at a time.
fn expect_long<R: Abort>(rt: &R, alloc: Global, writer: &mut Full) {
    let text = vec![in alloc; b'a'; 1_100_000].expect(rt, "memory");
    expect!(*rt; write_whole(writer, &text) == Ok(()));
    expect!(*rt; writer.written.len() == 1_100_000);
}

#[test]
fn a_long_text_is_written_whole(rt: HostRuntime) {
    expect_long(&rt, rt.alloc(), &mut writer(rt.alloc(), 1_100_000, 1, true));
}

/// A writer has as much of a text as it has room for.
fn expect_beginning<R: Abort>(rt: &R, writer: &mut Full, text: &[u8]) {
    let room = writer.room;
    expect!(*rt; write_whole(writer, text) == Err(StreamFault::Output));
    expect!(*rt; writer.written.len() == room && text.starts_with(&writer.written));
}

/// Writers with less room than a text needs, which then fail, or accept nothing.
#[test]
fn a_writer_that_fails_has_a_beginning(rt: HostRuntime) {
    for room in 0..13 {
        for fails in [true, false] {
            expect_beginning(
                &rt,
                &mut writer(rt.alloc(), room, 1, fails),
                b"hop 1 taken 6",
            );
        }
    }
}

/// The text of a fault.
fn expect_line<R: Abort>(rt: &R, alloc: Global, fault: StreamFault, line: &str) {
    let shown = format!(in alloc; "{}", fault).expect(rt, "memory");
    expect!(*rt; shown.as_str() == line);
}

#[test]
fn faults_have_their_lines(rt: HostRuntime) {
    for (fault, line) in [
        (StreamFault::Input, "rly: input failed"),
        (StreamFault::Output, "rly: output failed"),
    ] {
        expect_line(&rt, rt.alloc(), fault, line);
    }
}
