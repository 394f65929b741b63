//! The committer's rounds, one by one, in which the journal breaks and after that.

use crate::callers::{Caller, QUESTION, TAKE, Told};
use crate::devices::failing;
use crate::served::{AT_ONCE, Service, run, run_failing, served};
use rly_disk::{FaultDisk, MemDisk};
use rly_journal::Journal;
use std::alloc::Global;
use std::process::Abort;
use std::sync::Wait;
use std::thread::Threads;
use std::time::Clock;

/// The rounds are counted.
const ONE_BY_ONE: Service<'static> = Service {
    rounds: 65,
    ..AT_ONCE
};

/// Two takes of one peer, in order.
const TWO_TAKES: Service<'static> = Service {
    capacity: 1,
    callers: &[Caller { calls: 2, ..TAKE }],
    ..ONE_BY_ONE
};

/// The number of runs, on a device that stops at one call after the other, whose first round broke the journal,
/// before one in which it didn't.
fn broken_rounds<R: Abort + Threads + Wait + Clock + Copy + Send + 'static>(
    rt: R,
    alloc: Global,
) -> u64 {
    let mut broken = 0u64;
    for fails_at in 1..100 {
        if let Some(left) = run_failing(rt, alloc, fails_at, &TWO_TAKES) {
            expect!(rt; left.rounds == 2);
            if left.heard.first == Told::Taken(1) {
                return broken;
            }
            expect!(rt; left.heard.first == Told::Unsure && left.heard.last == Told::Broken);
            broken = broken.saturating_add(1);
        }
    }
    panic!(rt; "each run failed")
}

/// A round takes a call and answers it even if the journal broke in the round before: 12 in the round that broke
/// it, and 11 in the next. Then one more finds that no seat is left. A round has four calls of its device, and the
/// first round has them in four of the runs.
#[test]
fn a_round_of_a_broken_journal_answers(rt: HostRuntime) {
    expect!(rt; broken_rounds(rt, rt.alloc()) == 4);
}

/// A take.
const ONE_TAKE: Service<'static> = Service {
    capacity: 1,
    callers: &[TAKE],
    ..AT_ONCE
};

/// The journal of a flusher after a take, if that broke it.
fn broken_by<R: Abort + Threads + Wait + Clock + Copy + Send + 'static>(
    rt: R,
    alloc: Global,
    journal: Journal<FaultDisk<MemDisk>>,
) -> Option<Journal<FaultDisk<MemDisk>>> {
    let (finished, _heard, _rounds) = served(rt, alloc, journal, &ONE_TAKE);
    if finished.broken {
        Some(finished.journal)
    } else {
        None
    }
}

/// A journal that broke in its first round.
pub(super) fn broken_journal<R: Abort + Threads + Wait + Clock + Copy + Send + 'static>(
    rt: R,
    alloc: Global,
) -> Journal<FaultDisk<MemDisk>> {
    for fails_at in 1..100 {
        if let Some(journal) = failing(&rt, alloc, fails_at) {
            if let Some(broken) = broken_by(rt, alloc, journal) {
                return broken;
            }
        }
    }
    panic!(rt; "no journal broke")
}

/// Two queries, one at each seat.
const TWO_SEATS: Service<'static> = Service {
    capacity: 2,
    callers: &[QUESTION; 2],
    ..AT_ONCE
};

/// The outcome of the query that wasn't answered, of two at the seats of a flusher over a broken journal that
/// begins after this many milliseconds.
fn told_of_the_end<R: Abort + Threads + Wait + Clock + Copy + Send + 'static>(
    rt: R,
    alloc: Global,
    pause: u64,
) -> Told {
    let journal = broken_journal(rt, alloc);
    let left = run(rt, alloc, journal, &Service { pause, ..TWO_SEATS });
    expect!(rt; left.broken && left.heard.answered == 1);
    if left.heard.first == Told::Broken {
        left.heard.last
    } else {
        expect!(rt; left.heard.last == Told::Broken);
        left.heard.first
    }
}

/// Begins the flusher later each time, until both wait.
fn expect_one_lost<R: Abort + Threads + Wait + Clock + Copy + Send + 'static>(
    rt: R,
    alloc: Global,
) {
    let mut pause = 10u64;
    for _run in 0..10 {
        let told = told_of_the_end(rt, alloc, pause);
        if told == Told::Lost {
            return;
        }
        expect!(rt; told == Told::HandedBack);
        pause = pause.saturating_mul(2);
    }
    panic!(rt; "in each run the second came too late")
}

/// Of two queries that wait for a flusher over a broken journal one is answered, and the other is left in the
/// queue. Its seat learns that no answers come, though the queues are kept.
#[test]
fn a_seat_that_waits_is_told_of_the_end(rt: HostRuntime) {
    expect_one_lost(rt, rt.alloc());
}
