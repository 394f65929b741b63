//! A relay in threads.

ghost use Rattle.std.specs.Prelude.{None, false};

use crate::devices::{DEVICE, new_journal};
use crate::links::link_with;
use crate::relayed::{Left, left_by};
use rly_core::{HopId, PeerId};
use rly_link::{Go, MemLink, MemWaker, Point, Post, Turn, Worker};
use std::alloc::Global;
use std::process::Abort;
use std::sync::Wait;
use std::sync::atomic::{AtomicU64, Ordering};
use std::thread;
use std::thread::Threads;
use std::time::{Clock, Duration};

const WORKERS: [Worker; 3] = [
    Worker::Receiver(PeerId(1)),
    Worker::Receiver(PeerId(2)),
    Worker::Sender(HopId(1)),
];

/// Data number 1 with payload `000c41` to station 7, from station 3 and from station 4.
const DATA: [&[u8]; 2] = [
    b"\x52\x4c\x01\x01\x00\x03\x00\x07\x00\x00\x00\x00\x00\x00\x00\x01\x00\x03\x00\x0c\x41",
    b"\x52\x4c\x01\x01\x00\x04\x00\x07\x00\x00\x00\x00\x00\x00\x00\x01\x00\x03\x00\x0c\x41",
];

/// Eight turns. One worker is held before its first call until two others were answered.
#[derive(Drop)]
struct Held<'a, C: Clock + Drop> {
    clock: C,
    is_held: bool,
    /// The number of workers that were answered.
    answered: &'a AtomicU64,
    /// The number of workers that stopped waiting.
    gave_up: &'a AtomicU64,
    calls: u64,
    turns: u64,
}

impl<'a, C: Clock + Drop> Held<'a, C> {
    /// Waits for the other two, at most 1,000 times 10 ms.
    fn wait(&self) {
        for _wait in 0..1_000 {
            if self.answered.load(Ordering::SeqCst) >= 2 {
                return;
            }
            thread::sleep(&self.clock, Duration::from_millis(10));
        }
        self.gave_up.fetch_add(1, Ordering::SeqCst);
    }
}

impl<'a, C: Clock + Drop> Turn for Held<'a, C> {
    ghost told = { λ _. None };

    ghost endless = { λ _. false };

    ghost latest = { λ _. 0 };

    fn between<R: Wait>(&mut self, rt: &R, worker: Worker, point: Point) -> Go {
        let _ = rt;
        let _ = worker;
        match point {
            Point::Start => self.turns = self.turns.saturating_add(1),
            Point::Heard => {}
            Point::Call => {
                self.calls = self.calls.saturating_add(1);
                if self.is_held && self.calls == 1 {
                    self.wait();
                }
            }
            Point::Answered => {
                if self.calls == 1 {
                    self.answered.fetch_add(1, Ordering::SeqCst);
                }
            }
        }
        Go {
            now: 150,
            since: 0,
            on: self.turns <= 8,
        }
    }
}

/// The link of a worker: a receiver first gets one datagram.
fn link_of<R: Abort>(rt: &R, alloc: Global, worker: Worker) -> MemLink {
    match worker {
        Worker::Receiver(PeerId(1)) => link_with(rt, alloc, &[DATA[0]]),
        Worker::Receiver(_) => link_with(rt, alloc, &[DATA[1]]),
        Worker::Sender(_) => link_with(rt, alloc, &[]),
    }
}

/// The posts of the three workers, of which one is held.
fn posts<'a, R: Abort>(
    rt: &R,
    clock: HostRuntime,
    held: Worker,
    answered: &'a AtomicU64,
    gave_up: &'a AtomicU64,
) -> Vec<Post<MemLink, Held<'a, HostRuntime>, MemWaker>> {
    let alloc = clock.alloc();
    let mut posts = Vec::new(alloc);
    for worker in WORKERS {
        let turn = Held {
            clock,
            is_held: worker == held,
            answered,
            gave_up,
            calls: 0,
            turns: 0,
        };
        let post = Post {
            worker,
            link: link_of(rt, alloc, worker),
            turn,
            waker: MemWaker::new(),
        };
        posts.push(post).expect(rt, "memory");
    }
    posts
}

/// Checks that each worker ran, and that both datagrams were stored.
fn expect_taken<R: Abort>(rt: &R, left: &Left) {
    expect!(*rt; left.complete && !left.broken);
    expect!(*rt; left.lasts == (Some(1), Some(1)));
}

/// The result of a relay with this worker held.
fn left_of<'a, R: Abort + Threads + Wait + Clock + Sync>(
    rt: &R,
    clock: HostRuntime,
    held: Worker,
    answered: &'a AtomicU64,
    gave_up: &'a AtomicU64,
) -> Left {
    let alloc = clock.alloc();
    let posts = posts(rt, clock, held, answered, gave_up);
    left_by(rt, alloc, new_journal(rt, alloc, &DEVICE), posts)
}

/// Checks that the other two are answered while this worker is held.
fn expect_overlap<R: Abort + Threads + Wait + Clock + Sync>(
    rt: &R,
    clock: HostRuntime,
    held: Worker,
) {
    let answered = AtomicU64::new(0);
    let gave_up = AtomicU64::new(0);
    expect_taken(rt, &left_of(rt, clock, held, &answered, &gave_up));
    expect!(*rt; gave_up.load(Ordering::SeqCst) == 0);
    expect!(*rt; answered.load(Ordering::SeqCst) == 3);
}

/// Checks it of each worker.
fn expect_overlaps<R: Abort + Threads + Wait + Clock + Sync>(rt: &R, clock: HostRuntime) {
    for held in WORKERS {
        expect_overlap(rt, clock, held);
    }
}

/// Two receivers and a sender run in parallel: whichever is held before its first call, the other two are answered
/// meanwhile, and then it is.
#[test]
fn receivers_overlap(rt: HostRuntime) {
    expect_overlaps(&rt, rt);
}
