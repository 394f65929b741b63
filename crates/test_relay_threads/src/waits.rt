//! Seats whose batches are put in one call and whose answers are taken in another: one thread drives several seats
//! and their flusher.

ghost use Rattle.std.specs.Prelude.{◌≡◌, ◌≤◌, [], length, vec_capacity};

use crate::asks::{Asks, ask_of};
use crate::devices::{DEVICE, new_journal};
use crate::served::flusher_over;
use rly_disk::MemDisk;
use rly_flush::{Flusher, NoWatch};
use rly_line::{Seat, Taken, WaitingSeat, make};
use rly_machine::{Answer, Ask, Reply};
use std::alloc::Global;
use std::process::Abort;
use std::sync::Wait;
use std::thread;
use std::thread::Threads;

/// Two takes of a peer, under these numbers.
fn two_takes<R: Abort>(rt: &R, alloc: Global, peer: u16, first: u64) -> Vec<Ask> {
    let mut asks = Vec::new(alloc);
    for number in [first, first.saturating_add(1)] {
        let ask = ask_of(rt, alloc, Asks::Takes(peer), number);
        asks.push(ask).ok().expect(rt, "memory");
    }
    asks
}

/// The seat after it submitted two takes of a peer, which the queue accepts.
fn put_two<R: Abort + Wait>(
    rt: &R,
    alloc: Global,
    seat: Seat,
    peer: u16,
    first: u64,
) -> WaitingSeat {
    let mut asks = two_takes(rt, alloc, peer, first);
    if asks.len() != 2 {
        panic!(rt; "two asks");
    }
    let waiting = seat.put(rt, &mut asks).ok().expect(rt, "submitted");
    expect!(*rt; asks.is_empty() && waiting.expected_len() == 2);
    waiting
}

/// An empty list for the answers to two asks.
fn room_for_two<R: Abort>(rt: &R, alloc: Global) -> Vec<Answer>
    ensures { (result.items ≡ []) × (64 ≤ vec_capacity result) }
{
    Vec::with_capacity(alloc, 64).expect(rt, "memory")
}

/// Tries to take the answers of a seat.
fn try_take<R: Abort + Wait>(rt: &R, alloc: Global, waiting: WaitingSeat) -> (Taken, Vec<Answer>) {
    let mut answers = room_for_two(rt, alloc);
    let _count = waiting.expected_len();
    let taken = waiting.take(rt, &mut answers);
    (taken, answers)
}

/// Checks that the answers are those to the calls of these numbers, and that each stored a datagram.
fn expect_taken<R: Abort>(rt: &R, answers: &Vec<Answer>, first: u64) {
    expect!(*rt; answers.len() == 2);
    let mut number = first;
    for answer in answers.as_slice() {
        expect!(*rt; answer.number == number && matches!(&answer.reply, Reply::Taken(_)));
        number = number.saturating_add(1);
    }
}

/// The seat after its two answers were taken, without waiting.
fn taken_of<R: Abort + Wait>(rt: &R, alloc: Global, waiting: WaitingSeat, first: u64) -> Seat {
    let (taken, answers) = try_take(rt, alloc, waiting);
    let Taken::Answered(seat) = taken else {
        panic!(rt; "answers");
    };
    expect_taken(rt, &answers, first);
    seat
}

/// The seat that waits on, since its answers aren't there.
fn not_yet<R: Abort + Wait>(rt: &R, alloc: Global, waiting: WaitingSeat) -> WaitingSeat {
    let (taken, answers) = try_take(rt, alloc, waiting);
    let Taken::NotYet(waiting) = taken else {
        panic!(rt; "no answers yet");
    };
    expect!(*rt; answers.is_empty());
    waiting
}

/// The seat after it waited for its two answers.
fn waited_for<R: Abort + Wait>(rt: &R, alloc: Global, waiting: WaitingSeat, first: u64) -> Seat {
    let mut answers = room_for_two(rt, alloc);
    let _count = waiting.expected_len();
    let seat = waiting.wait(rt, &mut answers).ok().expect(rt, "answers");
    expect_taken(rt, &answers, first);
    seat
}

/// The seat after it submitted two takes of peer 1, and waited for their answers.
fn put_and_wait<R: Abort + Wait>(rt: &R, alloc: Global, seat: Seat, first: u64) -> Seat {
    waited_for(rt, alloc, put_two(rt, alloc, seat, 1, first), first)
}

/// A flusher over a new journal, and two seats.
fn two_seats<R: Abort>(rt: &R, alloc: Global) -> (Seat, Seat, Flusher<MemDisk>) {
    let journal = new_journal(rt, alloc, &DEVICE);
    let (mut seats, flusher) = flusher_over(rt, alloc, journal, 4, 2);
    let second = seats.pop().expect(rt, "a seat");
    let first = seats.pop().expect(rt, "a seat");
    expect!(*rt; first.id().0 == 0 && second.id().0 == 1);
    (first, second, flusher)
}

fn expect_one_thread<R: Abort + Threads + Wait + std::time::Clock + Copy + Send + 'static>(
    rt: R,
    alloc: Global,
) {
    let (first, second, mut flusher) = two_seats(&rt, alloc);
    let first = put_two(&rt, alloc, first, 1, 1);
    let second = put_two(&rt, alloc, second, 2, 1);
    let first = not_yet(&rt, alloc, first);
    expect!(rt; first.id().0 == 0 && second.id().0 == 1);
    // One round answers both. The second seat's answers are taken first.
    expect!(rt; flusher.round(&rt, &mut NoWatch));
    let second = taken_of(&rt, alloc, second, 1);
    let first = taken_of(&rt, alloc, first, 1);
    // The first seat goes on in another thread, which waits for its answers.
    let asked = thread::spawn(&rt, move || put_and_wait(&rt, alloc, first, 3))
        .ok()
        .expect(&rt, "a thread");
    expect!(rt; flusher.round(&rt, &mut NoWatch));
    let first = asked.join(&rt);
    // Then it leaves while it waits. Its takes were submitted and take effect, though nobody takes the answers: its
    // remains are kept, with the answers in its queue.
    let first = put_two(&rt, alloc, first, 1, 5);
    let _left = (first.leave(&rt), second.leave(&rt));
    expect!(rt; flusher.serve(&rt, &mut NoWatch).journal.position() == 8);
}

/// One thread puts the batches of two seats and takes the answers of each, in any order of the seats.
#[test]
fn one_thread_drives_two_seats(rt: HostRuntime) {
    expect_one_thread(rt, rt.alloc());
}

/// Checks that a seat is shut: it hands its asks back.
fn expect_shut<R: Abort + Wait>(rt: &R, alloc: Global, seat: Seat) {
    let mut asks = two_takes(rt, alloc, 1, 3);
    if asks.len() != 2 {
        panic!(rt; "two asks");
    }
    let seat = seat
        .put(rt, &mut asks)
        .err()
        .expect(rt, "nothing submitted");
    expect!(*rt; asks.len() == 2);
    let _left = seat.leave(rt);
}

fn expect_lost<R: Abort + Wait>(rt: &R, alloc: Global) {
    let (mut seats, line) = make(alloc, 2, 2).expect(rt, "memory");
    let second = put_two(rt, alloc, seats.pop().expect(rt, "a seat"), 2, 1);
    let first = put_two(rt, alloc, seats.pop().expect(rt, "a seat"), 1, 1);
    let first = not_yet(rt, alloc, first);
    let closed = line.close(rt);
    let (taken, answers) = try_take(rt, alloc, first);
    let Taken::Lost(first) = taken else {
        panic!(rt; "lost");
    };
    expect!(*rt; answers.is_empty());
    expect_shut(rt, alloc, first);
    let mut answers = room_for_two(rt, alloc);
    let _count = second.expected_len();
    let second = second.wait(rt, &mut answers).err().expect(rt, "lost");
    expect!(*rt; answers.is_empty());
    expect_shut(rt, alloc, second);
    drop(closed);
}

/// The queue is closed while two seats wait: both are told, and hand back what they are to submit then.
#[test]
fn waiting_seats_are_lost(rt: HostRuntime) {
    expect_lost(&rt, rt.alloc());
}
