//! Seats whose queue ends, or whose calls are never answered.

ghost use Rattle.std.specs.Prelude.{◌≤◌};

use crate::callers::{Caller, Heard, QUESTION, Told, asking, calls_at};
use rly_line::{LineEnd, Seat, make};
use std::alloc::Global;
use std::process::Abort;
use std::sync::Wait;
use std::thread::Threads;

/// Two queries, in order.
const TWO_QUESTIONS: Caller = Caller {
    calls: 2,
    ..QUESTION
};

/// The last of this many seats, and the other end of their queue, which holds one call.
fn last_of<R: Abort>(rt: &R, alloc: Global, count: u16) -> (Seat, LineEnd)
    requires { (1 ≤ count) × (count ≤ 256) }
{
    let (mut seats, line) = make(alloc, 1, count).expect(rt, "memory");
    (seats.pop().expect(rt, "a seat"), line)
}

/// The outcomes of a caller if the other end was dropped.
fn told_without<R: Abort + Wait>(rt: &R, alloc: Global, (seat, line): (Seat, LineEnd)) -> Heard {
    drop(line);
    let (heard, _left) = calls_at(rt, alloc, seat, TWO_QUESTIONS);
    heard
}

/// Receives the one call that comes and never answers it.
fn take_one<R: Abort + Wait>(rt: &R, line: &mut LineEnd) {
    let batch = line.wait(rt).expect(rt, "a batch");
    expect!(*rt; batch.len() == 1);
    expect!(*rt; line.more(rt).is_none());
}

/// The outcomes of a caller whose first call is received and never answered. The queue's end is then dropped or, if
/// so told, closed and still there while the caller ends.
fn told_nothing<R: Abort + Threads + Wait + Copy + Send + 'static>(
    rt: R,
    alloc: Global,
    (seat, mut line): (Seat, LineEnd),
    is_closed: bool,
) -> Heard {
    let asked = asking(rt, alloc, seat, TWO_QUESTIONS);
    take_one(&rt, &mut line);
    if is_closed {
        let _closed = line.close(&rt);
        asked.join(&rt).0
    } else {
        drop(line);
        asked.join(&rt).0
    }
}

/// Checks the outcomes of callers whom nobody answers.
fn expect_unanswered<R: Abort + Threads + Wait + Copy + Send + 'static>(rt: R, alloc: Global) {
    // The other end was dropped.
    let gone = told_without(&rt, alloc, last_of(&rt, alloc, 1));
    expect!(rt; gone.first == Told::HandedBack && gone.last == Told::HandedBack);
    // It receives the first call and is dropped. The call is lost, and the seat is shut.
    let lost = told_nothing(rt, alloc, last_of(&rt, alloc, 1), false);
    expect!(rt; lost.first == Told::Lost && lost.last == Told::HandedBack);
    // It receives the first call and closes the queue, also for the last of 200 seats.
    let closed = told_nothing(rt, alloc, last_of(&rt, alloc, 200), true);
    expect!(rt; closed.first == Told::Lost && closed.last == Told::HandedBack);
}

/// A call is handed back if the other end was dropped. One that was received and never answered is lost.
#[test]
fn nobody_answers(rt: HostRuntime) {
    expect_unanswered(rt, rt.alloc());
}
