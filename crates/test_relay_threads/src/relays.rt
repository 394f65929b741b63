//! Relays in threads: of many workers and of one, with full batches, over journals that were used,
//! are wide, or broke.

ghost use Rattle.std.specs.Prelude.{None, false};

use crate::devices::{DEVICE, WIDE, new_journal};
use crate::links::give;
use crate::relayed::{left_by, run};
use crate::rounds::broken_journal;
use rly_core::PeerId;
use rly_disk::MemDisk;
use rly_journal::Journal;
use rly_link::{Go, MemLink, MemWaker, Point, Post, Turn, Worker};
use std::alloc::Global;
use std::process::Abort;
use std::sync::Wait;
use std::thread::Threads;
use std::time::Clock;

/// A number of turns, all at one moment.
#[derive(Drop)]
struct Turns {
    left: u64,
}

impl Turn for Turns {
    ghost told = { λ _. None };

    ghost endless = { λ _. false };

    ghost latest = { λ _. 0 };

    fn between<R: Wait>(&mut self, rt: &R, worker: Worker, point: Point) -> Go {
        let _ = rt;
        let _ = worker;
        let on = self.left > 0;
        if point == Point::Start {
            self.left = self.left.saturating_sub(1);
        }
        Go {
            now: 150,
            since: 0,
            on,
        }
    }
}

/// Data from station 3 to station 7 under this number, payload `000c41`.
fn numbered(number: u8) -> [u8; 21] {
    let mut packet =
        *b"\x52\x4c\x01\x01\x00\x03\x00\x07\x00\x00\x00\x00\x00\x00\x00\x01\x00\x03\x00\x0c\x41";
    packet[15] = number;
    packet
}

/// The post of the receiver of a peer, which has this many turns and receives Data under each of these numbers.
fn post<R: Abort>(
    rt: &R,
    alloc: Global,
    peer: u16,
    first: u8,
    last: u8,
    turns: u64,
) -> Post<MemLink, Turns, MemWaker> {
    let mut coming = Vec::new(alloc);
    for number in first..=last {
        give(rt, alloc, &mut coming, &numbered(number));
    }
    Post {
        worker: Worker::Receiver(PeerId(peer)),
        link: MemLink::new(alloc, coming, 0),
        turn: Turns { left: turns },
        waker: MemWaker::new(),
    }
}

/// The posts of this many workers, of which the first receives Data under these numbers, and the others nothing.
/// Each has two turns.
fn posts<R: Abort>(
    rt: &R,
    alloc: Global,
    count: u16,
    (first, last): (u8, u8),
) -> Vec<Post<MemLink, Turns, MemWaker>> {
    let mut posts = Vec::new(alloc);
    for peer in 1..=count {
        let last = if peer == 1 { last } else { 0 };
        let post = post(rt, alloc, peer, first, last, 2);
        posts.push(post).expect(rt, "memory");
    }
    posts
}

/// The journal of a relay of one worker, which stored 70 datagrams in two turns.
fn journal_of_70<R: Abort + Threads + Wait + Clock + Sync>(
    rt: &R,
    alloc: Global,
) -> Journal<MemDisk> {
    let posts = posts(rt, alloc, 1, (1, 70));
    let (left, journal) = run(rt, alloc, new_journal(rt, alloc, &DEVICE), posts);
    expect!(*rt; left.complete && !left.is_cut);
    expect!(*rt; left.lasts.0 == Some(70));
    expect!(*rt; (left.ran, left.sent) == (1, 2));
    journal
}

/// Runs a relay that stores 70 datagrams, and one over its journal that stores the next.
fn take_71<R: Abort + Threads + Wait + Clock + Sync>(rt: &R, alloc: Global) {
    let posts = posts(rt, alloc, 1, (71, 71));
    let left = left_by(rt, alloc, journal_of_70(rt, alloc), posts);
    expect!(*rt; left.complete && !left.broken);
    expect!(*rt; left.lasts.0 == Some(71));
}

/// One worker stores 70 datagrams in two turns, 64 of them in the first. A relay over the resulting journal stores
/// the next.
#[test]
fn a_worker_alone_takes_full_batches(rt: HostRuntime) {
    take_71(&rt, rt.alloc());
}

/// Runs a relay of 256 workers, of which the first receives a datagram.
fn run_wide<R: Abort + Threads + Wait + Clock + Sync>(rt: &R, alloc: Global) {
    let posts = posts(rt, alloc, 256, (1, 1));
    let left = left_by(rt, alloc, new_journal(rt, alloc, &WIDE), posts);
    expect!(*rt; left.complete && !left.is_cut);
    expect!(*rt; left.workers == 256);
    expect!(*rt; left.lasts.0 == Some(1));
}

/// A relay may have 256 workers, over a journal of 64 hops and peers. Those whose peer isn't in the plan end at once.
#[test]
fn as_many_workers_as_a_line_has_seats(rt: HostRuntime) {
    run_wide(&rt, rt.alloc());
}

/// Runs a relay over a broken journal. It reports this, and its worker sends nothing.
fn run_broken<R: Abort + Threads + Wait + Clock + Sync + Copy + Send + 'static>(
    rt: &R,
    alloc: Global,
) {
    let posts = posts(rt, alloc, 1, (1, 1));
    let left = left_by(rt, alloc, broken_journal(*rt, alloc), posts);
    expect!(*rt; left.broken && left.is_cut);
    expect!(*rt; (left.ran, left.sent) == (1, 0));
}

/// A relay over a journal that is broken begins, stores nothing, and reports this.
#[test]
fn a_relay_of_a_broken_journal_ends(rt: HostRuntime) {
    run_broken(&rt, rt.alloc());
}
