//! The marks of senders that rest, and an output that two threads share.

use rly_core::HopId;
use rly_daemon_events::{OutputShare, Rests, SharedOutput};
use std::alloc::Global;
use std::io::{Error, ErrorKind, Write};
use std::process::Abort;
use std::sync::{Arc, Wait};
use std::thread::Threads;
use std::time::Clock;
use std::{io, thread};

fn rests_of(rt: &impl Abort, alloc: Global) -> Arc<Rests, Global> {
    let rests = Rests::open(alloc, 2).expect(rt, "memory");
    Arc::new(alloc, rests.expect(rt, "a counter")).expect(rt, "memory")
}

/// How many milliseconds a wait took, of at most this many.
fn waited(rt: &(impl Abort + Clock), rests: &Rests, most: u64) -> u128 {
    let began = rt.monotonic().expect(rt, "a clock");
    rests.wait(most.saturating_mul(1_000));
    let ended = rt.monotonic().expect(rt, "a clock");
    ended.saturating_sub(began).as_millis()
}

/// A change before a wait ends it, as the end of the station does; the same mark again ends none.
#[test]
fn a_change_ends_a_wait(rt: HostRuntime) {
    let rests = rests_of(&rt, rt.alloc());
    expect!(rt; waited(&rt, &rests, 30) >= 30);
    rests.set(HopId(2), true);
    expect!(rt; waited(&rt, &rests, 60_000) < 50_000);
    rests.set(HopId(2), true);
    expect!(rt; waited(&rt, &rests, 30) >= 30);
    expect!(rt; !rests.has_ended());
    rests.end();
    expect!(rt; rests.has_ended());
    expect!(rt; waited(&rt, &rests, 60_000) < 50_000);
}

/// A writer that takes three bytes at a time, up to so many in all, and then fails.
#[derive(Drop)]
struct Slow {
    text: Vec<u8>,
    room: usize,
}

impl Write for Slow {
    fn write(&mut self, text: &[u8]) -> io::Result<usize> {
        let count = text.len().min(3).min(self.room);
        if count == 0 {
            return Err(Error::from(ErrorKind::BrokenPipe));
        }
        self.room -= count;
        self.text.extend_from_slice(&text[..count])?;
        thread::yield_now();
        Ok(count)
    }

    fn flush(&mut self) -> io::Result<()> {
        Ok(())
    }
}

fn write_often<R: Wait>(rt: &R, output: &SharedOutput<'_, Slow>, text: &str) {
    let mut share = OutputShare::new(rt, output);
    for _time in 0..200 {
        let _told = share.write_all(text.as_bytes());
    }
}

/// Two threads write their texts, and the number of each that came whole; texts that came otherwise count as neither.
fn shared<R: Wait + Threads + Sync>(rt: &R, slow: &mut Slow) -> bool {
    let output = SharedOutput::new(slow);
    thread::join(
        rt,
        || write_often(rt, &output, "hop 1 open\n"),
        || write_often(rt, &output, "hop 2 closed\n"),
    );
    output.has_failed()
}

fn count_of(text: &[u8], line: &[u8]) -> usize {
    text.split(|byte| *byte == b'\n')
        .filter(|it| *it == line)
        .count()
}

#[test]
fn shared_texts_are_whole(rt: HostRuntime) {
    let mut slow = Slow {
        text: Vec::new(rt.alloc()),
        room: usize::MAX,
    };
    expect!(rt; !shared(&rt, &mut slow));
    expect!(rt; count_of(slow.text.as_slice(), b"hop 1 open") == 200);
    expect!(rt; count_of(slow.text.as_slice(), b"hop 2 closed") == 200);
}

#[test]
fn a_shared_output_remembers_a_failure(rt: HostRuntime) {
    let mut slow = Slow {
        text: Vec::new(rt.alloc()),
        room: 100,
    };
    expect!(rt; shared(&rt, &mut slow));
    expect!(rt; slow.text.len() == 100);
}
