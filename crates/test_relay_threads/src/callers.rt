//! Callers, each at a seat in a thread of its own, and their answers.
//!
//! A row has a caller's asks. While it asks, its seat is any desk, of which the prover sees
//! nothing more.

use crate::asks::{Asks, ask_of};
use rly_core::{HopId, Refusal};
use rly_line::{CallError, LeftSeat, Seat};
use rly_machine::{Answer, Ask, Query, Reply};
use rly_threads_workers::Desk;
use std::alloc::Global;
use std::process::Abort;
use std::sync::Wait;
use std::thread;
use std::thread::{JoinHandle, Threads};

/// The calls of a caller at its seat.
#[derive(Clone, Copy)]
pub(super) struct Caller {
    pub(super) asks: Asks,
    /// The number of calls, made in order.
    pub(super) calls: u64,
    /// The number of asks of a call, all of which must be answered. 0: a call is one ask, whatever its outcome.
    pub(super) batch: u64,
    /// Whether it leaves its seat then. The seat's remains are kept until all callers have ended.
    pub(super) leaves: bool,
}

/// One query.
pub(super) const QUESTION: Caller = Caller {
    asks: Asks::Windows,
    calls: 1,
    batch: 0,
    leaves: false,
};

/// The take of number 1 from peer 1.
pub(super) const TAKE: Caller = Caller {
    asks: Asks::Takes(1),
    ..QUESTION
};

/// The outcome of an ask.
#[derive(Clone, Copy, PartialEq)]
pub(super) enum Told {
    Nothing,
    Taken(u64),
    Already(u64),
    Unsure,
    Broken,
    Other,
    Lost,
    /// The queue was closed. A query to hop 1 was handed back unchanged.
    HandedBack,
    Closed,
}

/// The outcomes of a caller, or of several callers.
#[derive(Clone, Copy)]
pub(super) struct Heard {
    /// The outcome of the first ask, and of the last one.
    pub(super) first: Told,
    pub(super) last: Told,
    /// The number of asks.
    asked: u64,
    /// The number of answers, each caller's in order of its numbers.
    pub(super) answered: u64,
    /// The number of these that are Taken.
    pub(super) taken: u64,
}

impl Heard {
    /// No asks yet.
    const NOTHING: Heard = Heard {
        first: Told::Nothing,
        last: Told::Nothing,
        asked: 0,
        answered: 0,
        taken: 0,
    };

    /// Adds later outcomes.
    fn add(&mut self, next: &Heard) {
        if self.asked == 0 {
            self.first = next.first;
        }
        self.last = next.last;
        self.asked = self.asked.saturating_add(next.asked);
        self.answered = self.answered.saturating_add(next.answered);
        self.taken = self.taken.saturating_add(next.taken);
    }

    /// Records the outcome of the next ask.
    fn note(&mut self, told: Told) {
        if self.asked == 0 {
            self.first = told;
        }
        self.last = told;
        self.asked = self.asked.saturating_add(1);
    }

    /// Records the answer to the next ask.
    fn note_answer(&mut self, answer: &Answer) {
        let told = told_by(&answer.reply);
        if answer.number == self.answered.saturating_add(1) {
            self.answered = answer.number;
            let taken = u64::from(matches!(told, Told::Taken(_)));
            self.taken = self.taken.saturating_add(taken);
        }
        self.note(told);
    }
}

/// The outcome in a reply.
fn told_by(reply: &Reply) -> Told {
    match reply {
        Reply::Taken(id) => Told::Taken(*id),
        Reply::Already(last) => Told::Already(*last),
        Reply::Refused(Refusal::Unsure) => Told::Unsure,
        Reply::Refused(Refusal::Broken) => Told::Broken,
        _ => Told::Other,
    }
}

/// The outcome of a call that wasn't answered.
fn told_of(error: &CallError) -> Told {
    match error {
        CallError::Lost => Told::Lost,
        CallError::Closed(Ask::Query(Query::Window { hop: HopId(1) })) => Told::HandedBack,
        CallError::Closed(_) => Told::Closed,
    }
}

/// Submits an ask alone.
fn call_once<R: Wait, K: Desk>(rt: &R, desk: &mut K, ask: Ask, heard: &mut Heard) {
    match &desk.call(rt, ask) {
        Ok(answer) => heard.note_answer(answer),
        Err(error) => heard.note(told_of(error)),
    }
}

/// Submits a batch, all of which is submitted then, and records its answers.
fn put_batch<R: Abort + Wait, K: Desk>(
    rt: &R,
    desk: &mut K,
    asks: &mut Vec<Ask>,
    answers: &mut Vec<Answer>,
    heard: &mut Heard,
) {
    if asks.is_empty() || asks.len() > 64 {
        panic!(rt; "a batch has 1 to 64 asks");
    }
    if !answers.is_empty() || answers.capacity() < 64 {
        panic!(rt; "no room for the answers");
    }
    desk.call_all(rt, asks, answers).expect(rt, "answers");
    expect!(*rt; asks.is_empty());
    for answer in answers.as_slice() {
        heard.note_answer(answer);
    }
}

/// This many asks, under the numbers after this one.
fn asks_after<R: Abort>(rt: &R, alloc: Global, asks: Asks, (last, size): (u64, u64)) -> Vec<Ask> {
    let mut together = Vec::new(alloc);
    for place in 1..=size {
        let ask = ask_of(rt, alloc, asks, last.saturating_add(place));
        together.push(ask).ok().expect(rt, "memory");
    }
    together
}

/// Submits this many asks together.
fn call_together<R: Abort + Wait, K: Desk>(
    rt: &R,
    alloc: Global,
    desk: &mut K,
    caller: Caller,
    heard: &mut Heard,
) {
    let mut answers = Vec::with_capacity(alloc, 64).expect(rt, "memory");
    let mut asks = asks_after(rt, alloc, caller.asks, (heard.asked, caller.batch));
    put_batch(rt, desk, &mut asks, &mut answers, heard);
}

/// The outcomes of a caller at a desk.
fn calls_of<R: Abort + Wait, K: Desk>(
    rt: &R,
    alloc: Global,
    desk: &mut K,
    caller: Caller,
) -> Heard {
    let mut heard = Heard::NOTHING;
    for _call in 0..caller.calls {
        if caller.batch == 0 {
            let number = heard.asked.saturating_add(1);
            call_once(rt, desk, ask_of(rt, alloc, caller.asks, number), &mut heard);
        } else {
            call_together(rt, alloc, desk, caller, &mut heard);
        }
    }
    heard
}

/// The outcomes of a caller at a seat, which it then leaves or drops, and the remains of a seat that it leaves.
pub(super) fn calls_at<R: Abort + Wait>(
    rt: &R,
    alloc: Global,
    mut seat: Seat,
    caller: Caller,
) -> (Heard, Option<LeftSeat>) {
    let heard = calls_of(rt, alloc, &mut seat, caller);
    let left = if caller.leaves {
        Some(seat.leave(rt))
    } else {
        None
    };
    (heard, left)
}

/// A caller's thread: its outcomes, and the remains of its seat.
pub(super) type Asking = JoinHandle<(Heard, Option<LeftSeat>)>;

/// A caller in a thread of its own.
pub(super) fn asking<R: Abort + Threads + Wait + Copy + Send + 'static>(
    rt: R,
    alloc: Global,
    seat: Seat,
    caller: Caller,
) -> Asking {
    thread::spawn(&rt, move || calls_at(&rt, alloc, seat, caller))
        .ok()
        .expect(&rt, "a thread")
}

/// The outcomes of callers, in order.
pub(super) fn told_all<R: Threads>(rt: &R, all: Vec<Asking>) -> Heard {
    let mut heard = Heard::NOTHING;
    for asked in all {
        let (next, _left) = asked.join(rt);
        heard.add(&next);
    }
    heard
}
