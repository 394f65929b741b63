//! The committer's rounds and pauses: how many a number of calls take, when a round gathers more
//! calls, and which it takes then.

use crate::asks::Asks;
use crate::callers::{Asking, Caller, QUESTION, TAKE, asking, calls_at, told_all};
use crate::devices::{DEVICE, new_journal};
use crate::rounds::broken_journal;
use crate::served::{flusher_over, rounds_up_to};
use rly_disk::Disk;
use rly_flush::Flusher;
use rly_journal::Journal;
use rly_line::Seat;
use std::alloc::Global;
use std::process::Abort;
use std::sync::atomic::{AtomicU64, Ordering};
use std::sync::{Arc, Wait};
use std::thread::Threads;
use std::time::{Clock, Duration};
use std::{io, thread};

/// A runtime that counts its sleeps.
#[derive(Drop)]
struct PauseClock<R> {
    rt: R,
    count: AtomicU64,
}

impl<R> PauseClock<R> {
    /// The number of sleeps so far.
    fn pauses(&self) -> u64 {
        self.count.load(Ordering::SeqCst)
    }
}

impl<R: Wait> Wait for PauseClock<R> {}

impl<R: Clock> Clock for PauseClock<R> {
    fn monotonic(&self) -> io::Result<Duration> {
        self.rt.monotonic()
    }

    fn since_1970(&self) -> io::Result<Duration> {
        self.rt.since_1970()
    }

    fn sleep(&self, duration: Duration) {
        self.count
            .store(self.pauses().saturating_add(1), Ordering::SeqCst);
        self.rt.sleep(duration);
    }
}

/// Callers whose calls wait for a flusher, and its rounds and pauses.
#[derive(Clone, Copy)]
struct Row {
    shows: &'static str,
    callers: &'static [Caller],
    /// One that asks once the flusher pauses.
    late: Option<Caller>,
    /// Whether the journal is broken.
    is_broken: bool,
    /// Whether the flusher has a pause.
    gathers: bool,
    /// The number of asks that are answered, of the rounds in which they are, and of the pauses of these.
    answered: u64,
    rounds: u64,
    pauses: u64,
}

/// The take of number 1 from peer 2.
const OTHER: Caller = Caller {
    asks: Asks::Takes(2),
    ..TAKE
};

/// A take that is answered after a pause.
const ONE: Row = Row {
    shows: "a take",
    callers: &[TAKE],
    late: None,
    is_broken: false,
    gathers: true,
    answered: 1,
    rounds: 1,
    pauses: 1,
};

/// 64 queries in one call.
const BATCH: Caller = Caller {
    batch: 64,
    ..QUESTION
};

const ROWS: [Row; 11] = [
    ONE,
    Row {
        shows: "without a pause",
        gathers: false,
        pauses: 0,
        ..ONE
    },
    // What comes in the pause is in the same round, a query too.
    Row {
        shows: "a late take",
        late: Some(OTHER),
        answered: 2,
        ..ONE
    },
    Row {
        shows: "a late query",
        late: Some(QUESTION),
        answered: 2,
        ..ONE
    },
    // A round without a command writes nothing, so it has nothing to share.
    Row {
        shows: "queries",
        callers: &[QUESTION; 3],
        answered: 3,
        pauses: 0,
        ..ONE
    },
    // A round takes all batches that wait: 64 of one ask, or three that hold as many together, or one that does.
    Row {
        shows: "64 queries in 64 calls",
        callers: &[Caller { batch: 1, ..BATCH }; 64],
        answered: 64,
        pauses: 0,
        ..ONE
    },
    Row {
        shows: "64 queries in three calls",
        callers: &[
            Caller { batch: 31, ..BATCH },
            Caller { batch: 32, ..BATCH },
            Caller { batch: 1, ..BATCH },
        ],
        answered: 64,
        pauses: 0,
        ..ONE
    },
    Row {
        shows: "64 queries in one call",
        callers: &[BATCH],
        answered: 64,
        pauses: 0,
        ..ONE
    },
    // A full round has no room.
    Row {
        shows: "a full round",
        callers: &[Caller { batch: 64, ..TAKE }],
        answered: 64,
        pauses: 0,
        ..ONE
    },
    // The first round has no room for the second batch, and the second round pauses.
    Row {
        shows: "a batch that doesn't fit",
        callers: &[Caller { batch: 40, ..TAKE }, Caller { batch: 40, ..OTHER }],
        answered: 80,
        rounds: 2,
        ..ONE
    },
    Row {
        shows: "a broken journal",
        is_broken: true,
        pauses: 0,
        ..ONE
    },
];

/// A caller in a thread of its own, which asks once the flusher pauses.
fn asking_late<R: Abort + Threads + Wait + Clock + Copy + Send + Sync + 'static>(
    rt: R,
    alloc: Global,
    seat: Seat,
    caller: Caller,
    clock: Arc<PauseClock<R>, Global>,
) -> Asking {
    thread::spawn(&rt, move || {
        for _nap in 0..10_000 {
            if clock.pauses() > 0 {
                break;
            }
            thread::sleep(&rt, Duration::from_millis(1));
        }
        calls_at(&rt, alloc, seat, caller)
    })
    .ok()
    .expect(&rt, "a thread")
}

/// The callers of a row, each in a thread of its own.
fn all_asking<R: Abort + Threads + Wait + Clock + Copy + Send + Sync + 'static>(
    rt: R,
    alloc: Global,
    mut seats: Vec<Seat>,
    row: &Row,
    clock: &Arc<PauseClock<R>, Global>,
) -> Vec<Asking> {
    let mut all = Vec::new(alloc);
    if let Some(caller) = row.late {
        let seat = seats.pop().expect(&rt, "a seat");
        let clock = Arc::try_clone(clock).expect(&rt, "memory");
        all.push(asking_late(rt, alloc, seat, caller, clock))
            .expect(&rt, "memory");
    }
    for (seat, caller) in seats.into_iter().zip(row.callers) {
        all.push(asking(rt, alloc, seat, *caller))
            .expect(&rt, "memory");
    }
    all
}

/// The number of rounds of a flusher over a journal, and of its pauses, for the callers of a row, which begin this
/// many milliseconds before it. Its pauses are as long.
fn rounds_of<
    R: Abort + Threads + Wait + Clock + Copy + Send + Sync + Drop + 'static,
    D: Disk + Drop,
>(rt: R, alloc: Global, journal: Journal<D>, row: &Row, pause: u64) -> (u64, u64) {
    let clock = PauseClock {
        rt,
        count: AtomicU64::new(0),
    };
    let clock = Arc::new(alloc, clock).ok().expect(&rt, "memory");
    let pause = Duration::from_millis(pause);
    let count = row
        .callers
        .len()
        .saturating_add(usize::from(row.late.is_some()));
    if count == 0 || count > 64 {
        panic!(rt; "1 to 64 callers");
    }
    let (seats, flusher) = flusher_over(&rt, alloc, journal, count as u16, count);
    let gather = if row.gathers { pause } else { Duration::ZERO };
    let flusher = flusher.with_gather(gather);
    let all = all_asking(rt, alloc, seats, row, &clock);
    thread::sleep(&rt, pause);
    let rounds = rounds_in(&*clock, flusher);
    let heard = told_all(&rt, all);
    expect!(rt; heard.answered == row.answered);
    (rounds, clock.pauses())
}

/// The number of rounds of a flusher until its seats are gone.
fn rounds_in<R: Wait + Clock, D: Disk + Drop>(rt: &R, mut flusher: Flusher<D>) -> u64 {
    rounds_up_to(rt, &mut flusher, 100)
}

/// Whether a flusher makes the rounds and pauses of a row. It begins later each time, since on a busy machine a
/// thread begins late too.
fn is_made<R: Abort + Threads + Wait + Clock + Copy + Send + Sync + Drop + 'static>(
    rt: R,
    alloc: Global,
    row: &Row,
) -> bool {
    let mut pause = 10u64;
    for _run in 0..10 {
        let made = if row.is_broken {
            rounds_of(rt, alloc, broken_journal(rt, alloc), row, pause)
        } else {
            rounds_of(rt, alloc, new_journal(&rt, alloc, &DEVICE), row, pause)
        };
        if made == (row.rounds, row.pauses) {
            return true;
        }
        pause = pause.saturating_mul(2);
    }
    false
}

/// Checks each row.
fn expect_rows<R: Abort + Threads + Wait + Clock + Copy + Send + Sync + Drop + 'static>(
    rt: R,
    alloc: Global,
    rows: &[Row],
) {
    for row in rows {
        crate::expect::expect(&rt, is_made(rt, alloc, row), row.shows);
    }
}

/// A round that has a command and room for more calls pauses, and takes what came meanwhile.
#[test]
fn a_round_gathers_in_its_pause(rt: HostRuntime) {
    expect_rows(rt, rt.alloc(), &ROWS);
}
