//! Seats, their submission queue, and the committer that replies to them, with one allocation that
//! fails (`bench/scarce_memory`).

use crate::asks::{Asks, ask_of};
use crate::devices::{DEVICE, device, opened};
use rly_disk::MemDisk;
use rly_flush::{Flusher, NoWatch};
use rly_line::{Seat, make};
use rly_machine::{Ask, Reply};
use std::alloc::Global;
use std::process::Abort;
use std::sync::Wait;
use std::thread;
use std::thread::Threads;
use std::time::Clock;
use test_support::{before, was_refused};

/// Makes a submission queue of two seats, with a capacity of four calls.
fn expect_line<R: Abort>(rt: &R, alloc: Global) {
    before(alloc).expect(rt, "memory");
    let made = make(alloc, 4, 2);
    let refused = was_refused(alloc);
    match made {
        Ok((seats, _line)) => {
            expect!(rt; seats.len() == 2);
            expect!(rt; matches!(seats.last(), Some(last) if last.id().0 == 1));
        }
        Err(_) => expect!(rt; refused),
    }
}

#[test]
fn a_line(rt: HostRuntime) {
    expect_line(&rt, rt.alloc());
}

/// Makes a seat, and the committer of a device's journal that replies to it. If that fails, the journal and the queue
/// are returned, and it is retried with them.
fn flusher_of<R: Abort>(rt: &R, alloc: Global, disk: MemDisk) -> (Seat, Flusher<MemDisk>) {
    let journal = opened(alloc, disk).expect(rt, "a journal");
    let (mut seats, line) = make(alloc, 4, 1).expect(rt, "a line");
    let seat = seats.pop().expect(rt, "a seat");
    before(alloc).expect(rt, "memory");
    let told = Flusher::new(alloc, journal, line);
    let refused = was_refused(alloc);
    expect!(rt; refused || told.is_ok());
    let flusher = match told {
        Ok(flusher) => flusher,
        Err((journal, line)) => Flusher::new(alloc, journal, line)
            .ok()
            .expect(rt, "a flusher"),
    };
    (seat, flusher)
}

/// Returns the reply to a seat's take: the datagram's id, or 100 plus the number of the refusal; 0 without a reply.
fn told<R: Wait>(rt: &R, seat: &mut Seat, ask: Ask) -> u64 {
    match seat.call(rt, ask) {
        Ok(answer) => match &answer.reply {
            Reply::Taken(id) => *id,
            Reply::Refused(refusal) => 100 + u64::from(refusal.number()),
            _ => 99,
        },
        Err(_) => 0,
    }
}

/// Returns the replies to the takes of three peers, and whether an allocation failed, here or at the committer.
fn ask_three<R: Abort + Wait>(rt: &R, alloc: Global, mut seat: Seat) -> ([u64; 3], bool) {
    let first = ask_of(rt, alloc, Asks::Takes(1), 1);
    let second = ask_of(rt, alloc, Asks::Takes(2), 1);
    let third = ask_of(rt, alloc, Asks::Takes(3), 1);
    before(alloc).expect(rt, "memory");
    let three = [
        told(rt, &mut seat, first),
        told(rt, &mut seat, second),
        told(rt, &mut seat, third),
    ];
    (three, was_refused(alloc))
}

/// Returns the number of takes on a device. The journal of a committer was used before.
fn standing_on<R: Abort + Wait + Clock>(rt: &R, alloc: Global, disk: MemDisk) -> u64 {
    let (seat, flusher) = flusher_of(rt, alloc, disk);
    drop(seat);
    let finished = flusher.serve(rt, &mut NoWatch);
    expect!(rt; !finished.broken);
    finished.journal.position()
}

/// A seat in its own thread gets the reply to each take that it was taken, or that an allocation failed, and these
/// weren't taken. If the disk in memory couldn't grow the reply is Unsure, and there is none after that: that take is
/// recovered or not.
fn expect_told<R: Abort + Threads + Wait + Clock + Copy + Send + 'static>(rt: R, alloc: Global) {
    let (seat, flusher) = flusher_of(&rt, alloc, device(&rt, alloc, &DEVICE));
    let asking = thread::spawn(&rt, move || ask_three(&rt, alloc, seat))
        .ok()
        .expect(&rt, "a thread");
    let finished = flusher.serve(&rt, &mut NoWatch);
    let (three, refused) = asking.join(&rt);
    let broken = finished.broken;
    let standing = standing_on(&rt, alloc, finished.journal.into_disk());
    expect!(rt; refused || three == [1, 2, 3]);
    expect!(rt; may_be(three, standing, broken));
}

/// Returns true iff three takes in turn may have these replies, with this many recovered. If the disk in memory
/// couldn't grow the journal is broken, and replies no more.
fn may_be(three: [u64; 3], standing: u64, broken: bool) -> bool {
    match (three, broken) {
        ([1, 2, 3], false) => standing == 3,
        ([114, 1, 2] | [1, 114, 2] | [1, 2, 114], false) => standing == 2,
        ([112, 0, 0], true) => standing <= 1,
        ([1, 112, 0], true) => standing == 1 || standing == 2,
        ([1, 2, 112], true) => standing == 2 || standing == 3,
        _ => false,
    }
}

#[test]
fn calls_of_a_seat(rt: HostRuntime) {
    expect_told(rt, rt.alloc());
}
