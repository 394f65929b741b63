//! A flusher with its callers, and its result.

use crate::callers::{Asking, Caller, Heard, asking, told_all};
use crate::devices::failing;
use rly_core::{HopId, PeerId};
use rly_disk::Disk;
use rly_flush::{Finished, Flusher, NoWatch};
use rly_journal::Journal;
use rly_line::{Seat, make};
use rly_machine::Reply;
use std::alloc::Global;
use std::process::Abort;
use std::sync::Wait;
use std::thread;
use std::thread::Threads;
use std::time::{Clock, Duration};

/// Callers at the seats of a queue, and how a flusher serves them.
#[derive(Clone, Copy)]
pub(super) struct Service<'a> {
    /// The capacity of the queue in calls.
    pub(super) capacity: u16,
    /// Each is at a seat of its own.
    pub(super) callers: &'a [Caller],
    /// The number of further seats that were dropped, and that the flusher is told to forget.
    pub(super) forgotten: usize,
    /// The number of rounds that the flusher makes after each caller began, before the next one does.
    pub(super) rounds_each: u64,
    /// The pause in milliseconds once all began.
    pub(super) pause: u64,
    /// The maximum number of rounds that it makes one by one then, until it finds no seat. After that it serves.
    pub(super) rounds: u64,
}

/// A queue without callers, which a flusher serves at once.
pub(super) const AT_ONCE: Service<'static> = Service {
    capacity: 256,
    callers: &[],
    forgotten: 0,
    rounds_each: 0,
    pause: 0,
    rounds: 0,
};

/// The result of a flusher.
#[derive(Clone, Copy)]
pub(super) struct Left {
    /// The outcomes of its callers.
    pub(super) heard: Heard,
    /// The number of rounds that it made one by one, once all had begun.
    pub(super) rounds: u64,
    /// Whether its journal is broken.
    pub(super) broken: bool,
    /// The number of commands that the journal made durable, and its window.
    pub(super) position: u64,
    pub(super) window: u64,
    /// The number of datagrams stored for hop 1, and the last numbers of the first four peers. The greatest number:
    /// unknown.
    pub(super) taken: u64,
    pub(super) lasts: [u64; 4],
}

/// A flusher over a journal, and this many seats at a queue of this capacity.
pub(super) fn flusher_over<R: Abort, D: Disk + Drop>(
    rt: &R,
    alloc: Global,
    journal: Journal<D>,
    capacity: u16,
    seats: usize,
) -> (Vec<Seat>, Flusher<D>) {
    if capacity == 0 || capacity > 256 || seats == 0 || seats > 256 {
        panic!(rt; "1 to 256 seats, and as many calls");
    }
    let (seats, line) = make(alloc, capacity, seats as u16)
        .ok()
        .expect(rt, "memory");
    let flusher = Flusher::new(alloc, journal, line).ok().expect(rt, "memory");
    (seats, flusher)
}

/// The number of rounds that a flusher makes, up to a maximum, until it finds no seat.
pub(super) fn rounds_up_to<R: Wait + Clock, D: Disk + Drop>(
    rt: &R,
    flusher: &mut Flusher<D>,
    most: u64,
) -> u64 {
    let mut rounds = 0u64;
    for _round in 0..most {
        if !flusher.round(rt, &mut NoWatch) {
            break;
        }
        rounds = rounds.saturating_add(1);
    }
    rounds
}

/// Callers, each in a thread of its own.
fn all_asking<R: Abort + Threads + Wait + Clock + Copy + Send + 'static, D: Disk + Drop>(
    rt: R,
    alloc: Global,
    seats: Vec<Seat>,
    flusher: &mut Flusher<D>,
    service: &Service,
) -> Vec<Asking> {
    let mut all = Vec::new(alloc);
    for (seat, caller) in seats.into_iter().zip(service.callers) {
        all.push(asking(rt, alloc, seat, *caller))
            .expect(&rt, "memory");
        let rounds = rounds_up_to(&rt, flusher, service.rounds_each);
        expect!(rt; rounds == service.rounds_each);
    }
    all
}

/// Callers that began, and this many rounds of their flusher before it serves.
fn begun<R: Abort + Threads + Wait + Clock + Copy + Send + 'static, D: Disk + Drop>(
    rt: R,
    alloc: Global,
    seats: Vec<Seat>,
    flusher: &mut Flusher<D>,
    service: &Service,
) -> (Vec<Asking>, u64) {
    let all = all_asking(rt, alloc, seats, flusher, service);
    flusher.forget(service.forgotten);
    thread::sleep(&rt, Duration::from_millis(service.pause));
    (all, rounds_up_to(&rt, flusher, service.rounds))
}

/// A flusher serves these callers to their end, and keeps its end of the queues until all had their answers.
fn ended<R: Threads + Wait + Clock, D: Disk + Drop>(
    rt: &R,
    flusher: Flusher<D>,
    all: Vec<Asking>,
) -> (Finished<D>, Heard) {
    let finished = flusher.serve(rt, &mut NoWatch);
    let heard = told_all(rt, all);
    (finished, heard)
}

/// The result of a flusher over a journal, the outcomes of its callers, and the number of rounds that it made one
/// by one.
pub(super) fn served<R: Abort + Threads + Wait + Clock + Copy + Send + 'static, D: Disk + Drop>(
    rt: R,
    alloc: Global,
    journal: Journal<D>,
    service: &Service,
) -> (Finished<D>, Heard, u64) {
    let count = service.callers.len().saturating_add(service.forgotten);
    let (seats, mut flusher) = flusher_over(&rt, alloc, journal, service.capacity, count);
    let (all, rounds) = begun(rt, alloc, seats, &mut flusher, service);
    let (finished, heard) = ended(&rt, flusher, all);
    (finished, heard, rounds)
}

/// The number of datagrams stored for hop 1.
fn taken_in<D: Disk>(journal: &Journal<D>) -> u64 {
    match &journal.ask_show(HopId(1)) {
        Reply::Shown(status) => status.taken,
        _ => u64::MAX,
    }
}

/// The last number of a peer.
fn last_in<D: Disk>(journal: &Journal<D>, peer: u16) -> u64 {
    journal.last(PeerId(peer)).ok().unwrap_or(u64::MAX)
}

/// The numbers in the result of a flusher.
fn left_in<D: Disk>(finished: &Finished<D>, heard: Heard, rounds: u64) -> Left {
    let journal = &finished.journal;
    Left {
        heard,
        rounds,
        broken: finished.broken,
        position: journal.position(),
        window: journal.params().window,
        taken: taken_in(journal),
        lasts: [
            last_in(journal, 1),
            last_in(journal, 2),
            last_in(journal, 3),
            last_in(journal, 4),
        ],
    }
}

/// The result of a flusher over a journal, and the outcomes of its callers.
pub(super) fn run<R: Abort + Threads + Wait + Clock + Copy + Send + 'static, D: Disk + Drop>(
    rt: R,
    alloc: Global,
    journal: Journal<D>,
    service: &Service,
) -> Left {
    let (finished, heard, rounds) = served(rt, alloc, journal, service);
    left_in(&finished, heard, rounds)
}

/// The same over a device that stops at its call of this number, if it opens.
pub(super) fn run_failing<R: Abort + Threads + Wait + Clock + Copy + Send + 'static>(
    rt: R,
    alloc: Global,
    fails_at: u64,
    service: &Service,
) -> Option<Left> {
    match failing(&rt, alloc, fails_at) {
        Some(journal) => Some(run(rt, alloc, journal, service)),
        None => None,
    }
}
