//! The committer: it answers seats in threads of their own, over a journal in memory.

use crate::asks::Asks;
use crate::callers::{Caller, Heard, QUESTION, TAKE, Told};
use crate::devices::{DEVICE, WIDE, new_journal};
use crate::served::{AT_ONCE, Left, Service, run};
use std::alloc::Global;
use std::process::Abort;
use std::sync::Wait;
use std::thread::Threads;
use std::time::Clock;

/// 100 takes, in order.
const TAKES: Caller = Caller { calls: 100, ..TAKE };

/// Four callers, each with the takes of its own peer.
const FOUR: [Caller; 4] = [
    TAKES,
    Caller {
        asks: Asks::Takes(2),
        ..TAKES
    },
    Caller {
        asks: Asks::Takes(3),
        ..TAKES
    },
    Caller {
        asks: Asks::Takes(4),
        ..TAKES
    },
];

/// It submits nothing and leaves its seat.
const LEAVES: Caller = Caller {
    calls: 0,
    leaves: true,
    ..QUESTION
};

/// A flusher over a new device serves callers, until each of its seats is gone. The number of answered asks, each
/// under its number and at its index; the number of takes among them that were taken; and the last numbers of four
/// peers then.
#[derive(Clone, Copy)]
struct Row {
    shows: &'static str,
    /// Whether the device is `WIDE`, or else `DEVICE`.
    is_wide: bool,
    service: Service<'static>,
    answered: u64,
    takes: u64,
    lasts: [u64; 4],
    window: u64,
    /// The outcomes of the first ask and of the last one, if only one order is possible.
    ends: Option<(Told, Told)>,
}

/// Nobody asks a flusher over the smallest device.
const NOTHING: Row = Row {
    shows: "nothing",
    is_wide: false,
    service: AT_ONCE,
    answered: 0,
    takes: 0,
    lasts: [0, 0, 0, 0],
    window: 8,
    ends: None,
};

const ROWS: [Row; 8] = [
    // A seat asks 2,100 times, and each call is submitted and answered under its number. That is above possible
    // limits at which an answer might be lost or a seat shut: 1,000, 1,024 and 2,048.
    Row {
        shows: "many calls",
        service: Service {
            capacity: 1,
            callers: &[Caller {
                calls: 2_100,
                ..QUESTION
            }],
            ..AT_ONCE
        },
        answered: 2_100,
        ..NOTHING
    },
    // Four seats share a queue that holds one call: each waits for its turn.
    Row {
        shows: "a full line",
        service: Service {
            capacity: 1,
            callers: &[Caller {
                calls: 50,
                ..QUESTION
            }; 4],
            ..AT_ONCE
        },
        answered: 200,
        ..NOTHING
    },
    // Each seat's takes are all taken.
    Row {
        shows: "takes",
        service: Service {
            callers: &FOUR,
            ..AT_ONCE
        },
        answered: 400,
        takes: 400,
        lasts: [100, 100, 100, 100],
        ..NOTHING
    },
    // Two of these batches don't fit into one round. All takes are taken, and each answer is at its ask's index.
    Row {
        shows: "batches",
        service: Service {
            callers: &[
                Caller {
                    calls: 2,
                    batch: 31,
                    ..TAKE
                },
                Caller {
                    asks: Asks::Takes(2),
                    calls: 2,
                    batch: 32,
                    ..TAKE
                },
                Caller {
                    asks: Asks::Takes(3),
                    calls: 2,
                    batch: 33,
                    ..TAKE
                },
                Caller {
                    asks: Asks::Takes(4),
                    calls: 2,
                    batch: 34,
                    ..TAKE
                },
            ],
            ..AT_ONCE
        },
        answered: 260,
        takes: 260,
        lasts: [62, 64, 66, 68],
        ..NOTHING
    },
    // The second seat asks for the same after the first was answered: it was stored before.
    Row {
        shows: "in turn",
        service: Service {
            callers: &[TAKE; 2],
            rounds_each: 1,
            ..AT_ONCE
        },
        answered: 2,
        takes: 1,
        lasts: [1, 0, 0, 0],
        ends: Some((Told::Taken(1), Told::Already(1))),
        ..NOTHING
    },
    // Seats that left end a flusher, though their remains still exist. They have left before it begins, thanks to
    // the pause.
    Row {
        shows: "left",
        service: Service {
            callers: &[LEAVES; 200],
            pause: 50,
            ..AT_ONCE
        },
        ..NOTHING
    },
    // A flusher may have the widest journal and the longest queue.
    Row {
        shows: "wide",
        is_wide: true,
        service: Service {
            callers: &[LEAVES; 256],
            pause: 50,
            ..AT_ONCE
        },
        window: 64,
        ..NOTHING
    },
    // A flusher stops waiting for 199 seats when told that they were dropped.
    Row {
        shows: "forgotten",
        service: Service {
            callers: &[Caller {
                leaves: true,
                ..TAKE
            }],
            forgotten: 199,
            ..AT_ONCE
        },
        answered: 1,
        takes: 1,
        lasts: [1, 0, 0, 0],
        ends: Some((Told::Taken(1), Told::Taken(1))),
        ..NOTHING
    },
];

/// Whether the first and the last ask have these outcomes.
fn is_told(heard: &Heard, ends: Option<(Told, Told)>) -> bool {
    match ends {
        Some((first, last)) => heard.first == first && heard.last == last,
        None => true,
    }
}

/// Whether a flusher's result is that of a row.
fn is_left(row: &Row, left: &Left) -> bool {
    let heard = &left.heard;
    let takes = [left.position, left.taken, heard.taken];
    !left.broken
        && takes == [row.takes; 3]
        && [heard.answered, left.window] == [row.answered, row.window]
        && left.lasts == row.lasts
        && is_told(heard, row.ends)
}

/// Checks these rows.
fn expect_rows<R: Abort + Threads + Wait + Clock + Copy + Send + 'static>(
    rt: R,
    alloc: Global,
    rows: &[Row],
) {
    for row in rows {
        let geometry = if row.is_wide { &WIDE } else { &DEVICE };
        let journal = new_journal(&rt, alloc, geometry);
        let left = run(rt, alloc, journal, &row.service);
        crate::expect::expect(&rt, is_left(row, &left), row.shows);
    }
}

/// Seats in threads of their own are answered, until each is gone.
#[test]
fn seats_are_served(rt: HostRuntime) {
    expect_rows(rt, rt.alloc(), &ROWS);
}
