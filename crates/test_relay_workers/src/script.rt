//! Workers whose turns follow a script, and checks of their effects.

use crate::workers::{Counting, Losing, MemEnds, Packets, Spool, are_sent, link, machine, plan};
use rly_core::{HopId, Params, PeerId, Refusal};
use rly_link::{Link, MemTurn, Worker};
use rly_machine::{Machine, Payload, Reply};
use rly_plan::Plan;
use rly_threads_workers::{Ends, MemDesk, receiver_run, sender_run};
use std::alloc::Global;
use std::process::Abort;
use std::sync::Wait;

/// Data number 1 from station 3 to station 7, payload `000c41`, and its custody.
pub(super) const TO_7: &[u8] =
    b"\x52\x4c\x01\x01\x00\x03\x00\x07\x00\x00\x00\x00\x00\x00\x00\x01\x00\x03\x00\x0c\x41";

pub(super) const OF_7: &[u8] = b"\x52\x4c\x01\x02\x00\x07\x00\x03\x00\x00\x00\x00\x00\x00\x00\x01";

/// The same from station 7 to station 9.
pub(super) const TO_9: &[u8] =
    b"\x52\x4c\x01\x01\x00\x07\x00\x09\x00\x00\x00\x00\x00\x00\x00\x01\x00\x03\x00\x0c\x41";

pub(super) const OF_9: &[u8] = b"\x52\x4c\x01\x02\x00\x09\x00\x07\x00\x00\x00\x00\x00\x00\x00\x01";

/// Station 9's Heard: it has all numbers up to 1, and the 64 after that.
pub(super) const HEARD_9: &[u8] =
    b"\x52\x4c\x01\x05\x00\x09\x00\x07\x00\x00\x00\x00\x00\x00\x00\x01\xff\xff\xff\xff\xff\xff\xff\xff";

/// Station 10's Heard of the same.
pub(super) const HEARD_10: &[u8] =
    b"\x52\x4c\x01\x05\x00\x0a\x00\x07\x00\x00\x00\x00\x00\x00\x00\x01\xff\xff\xff\xff\xff\xff\xff\xff";

/// Station 9's Heard of 2 to 64: number 1 is missing.
pub(super) const HEARD_AFTER_1: &[u8] =
    b"\x52\x4c\x01\x05\x00\x09\x00\x07\x00\x00\x00\x00\x00\x00\x00\x00\x7f\xff\xff\xff\xff\xff\xff\xff";

/// The same from station 7 to station 10, payload `000e42`.
pub(super) const TO_10: &[u8] =
    b"\x52\x4c\x01\x01\x00\x07\x00\x0a\x00\x00\x00\x00\x00\x00\x00\x01\x00\x03\x00\x0e\x42";

pub(super) const OF_10: &[u8] = b"\x52\x4c\x01\x02\x00\x0a\x00\x07\x00\x00\x00\x00\x00\x00\x00\x01";

/// The length of each datagram.
const LENGTH: u64 = 3;

/// A number that a row leaves open.
pub(super) const ANY: u64 = u64::MAX;

/// The number of asks that a worker's desk answered, of packets sent, of receives that waited, and of calls of its
/// link.
pub(super) type Done = [u64; 4];

/// The number of a hop's datagrams that wait, are in flight and were released.
pub(super) type Counts = [u64; 3];

/// After a number of turns: the effects of a worker, and the counts of its hop. That of a receiver is hop 1.
pub(super) type Row = (u64, Done, Counts);

/// A worker of station 7, and its effects after a number of its turns.
#[derive(Drop)]
pub(super) struct Script<'a> {
    pub(super) shows: &'a str,
    pub(super) worker: Worker,
    pub(super) spool: Spool,
    /// The window of a sender.
    pub(super) window: u64,
    /// The packets that the link receives.
    pub(super) heard: &'a [Packets<'a>],
    /// The call of the link that fails, counted from 1 over its receives and sends; 0 is none.
    pub(super) fails_at: u64,
    /// The ask whose answer is lost, and the refusal in its place.
    pub(super) lost: (u64, Refusal),
    /// The moment of the first turn, and the length of each turn and each call.
    pub(super) start: u64,
    pub(super) step: u64,
    pub(super) call: u64,
    /// The packets sent, in order. A row has their number.
    pub(super) sent: &'a [Packets<'a>],
    /// The counts of the other hop, which is hop 1 for a sender to hop 2, and else hop 2.
    pub(super) other: Counts,
    /// The number of times that a sender was woken, and the hop of the last, 0 for none.
    pub(super) woken: (u64, u16),
    pub(super) rows: &'a [Row],
}

/// An empty spool, and one that has stored a datagram for hop 1 from peer 1.
pub(super) const EMPTY: Spool = Spool {
    params: Params::DEFAULT,
    peer: 1,
    first: 0,
    second: 0,
};

pub(super) const ONE: Spool = Spool {
    params: Params {
        items: 8,
        ..Params::DEFAULT
    },
    first: 1,
    ..EMPTY
};

/// The receiver of peer 1, which receives nothing.
pub(super) const RECEIVER: Script<'static> = Script {
    shows: "a receiver",
    worker: Worker::Receiver(PeerId(1)),
    spool: EMPTY,
    window: 1,
    heard: &[],
    fails_at: 0,
    lost: (0, Refusal::Unsure),
    start: 150,
    step: 1,
    call: 0,
    sent: &[(0, OF_7, &[1])],
    other: [0, 0, 0],
    woken: (1, 1),
    rows: &[],
};

/// The sender of hop 1, which receives nothing.
pub(super) const SENDER: Script<'static> = Script {
    shows: "a sender",
    worker: Worker::Sender(HopId(1)),
    spool: ONE,
    start: 1_000,
    sent: &[(0, TO_9, &[1, 1, 1])],
    woken: (0, 0),
    ..RECEIVER
};

/// Runs a worker.
fn work<R: Abort + Wait>(rt: &R, alloc: Global, plan: &Plan, script: &Script, ends: &mut MemEnds) {
    match script.worker {
        Worker::Receiver(peer) => receiver_run(rt, alloc, plan, peer, ends),
        Worker::Sender(hop) => {
            let params = Params {
                window: script.window,
                ..script.spool.params
            };
            sender_run(rt, alloc, plan, hop, &params, ends);
        }
    }
}

/// The desk of a script's spool.
fn desk<R: Abort>(rt: &R, alloc: Global, script: &Script) -> Losing {
    Losing {
        desk: MemDesk::new(alloc, machine(rt, alloc, &script.spool)),
        lost: script.lost,
    }
}

/// The state of a worker at a desk after a number of turns.
fn left<R: Abort + Wait>(
    rt: &R,
    alloc: Global,
    script: &Script,
    turns: u64,
    desk: Losing,
) -> MemEnds {
    let mut ends = Ends {
        link: link(rt, alloc, script.heard, script.fails_at),
        desk,
        turn: MemTurn::new(script.start, script.step, turns).with_calls_of(script.call),
        waker: Counting {
            listens: 0,
            wakes: 0,
            hop: HopId(0),
        },
    };
    work(rt, alloc, &plan(rt, alloc), script, &mut ends);
    ends
}

/// The effects of a worker.
fn done(ends: &MemEnds) -> Done {
    [
        ends.desk.desk.calls(),
        ends.link.deliveries().len() as u64,
        ends.link.waits(),
        ends.link.calls(),
    ]
}

/// The counts of a hop.
fn counts<R: Abort>(rt: &R, machine: &Machine<Payload>, hop: u16) -> Counts {
    match &machine.ask_show(HopId(hop)) {
        Reply::Shown(status) => [status.queued, status.flight, status.released],
        _ => panic!(rt; "a hop"),
    }
}

/// The counts of both hops, and the number of datagrams and bytes in the spool.
fn held<R: Abort>(rt: &R, machine: &Machine<Payload>) -> ([Counts; 2], [u64; 2]) {
    (
        [counts(rt, machine, 1), counts(rt, machine, 2)],
        [machine.item_count(), machine.byte_count()],
    )
}

/// The same, in the form of a row.
fn told(script: &Script, counts: Counts) -> ([Counts; 2], [u64; 2]) {
    let [queued, flight, _] = counts;
    let [waiting, flying, _] = script.other;
    let items = queued
        .saturating_add(flight)
        .saturating_add(waiting)
        .saturating_add(flying);
    let hops = match script.worker {
        Worker::Sender(HopId(2)) => [script.other, counts],
        _ => [counts, script.other],
    };
    (hops, [items, LENGTH.saturating_mul(items)])
}

/// Whether these are the numbers of a row.
fn are(found: Done, told: Done) -> bool {
    found
        .iter()
        .zip(&told)
        .all(|(found, told)| *told == ANY || found == told)
}

/// Stops a test if a script's row fails.
fn expect_row<R: Abort>(rt: &R, holds: bool, what: &str, script: &Script, turns: u64) {
    let (shows, call) = (script.shows, script.fails_at);
    assert!(rt;
        holds,
        "{shows}: {what}, after {turns} turns, where call {call} fails"
    );
}

/// Checks the effects of a worker. A call of its link failed if it made that many.
fn expect_found<R: Abort>(rt: &R, alloc: Global, ends: &MemEnds, script: &Script, row: &Row) {
    let (turns, wanted, counts) = *row;
    let found = done(ends);
    let failures = u64::from(1 <= script.fails_at && script.fails_at <= found[3]);
    let sent = are_sent(rt, alloc, ends.link.deliveries(), script.sent);
    expect_row(rt, are(found, wanted), "done", script, turns);
    expect_row(
        rt,
        ends.link.failures() == failures,
        "failures",
        script,
        turns,
    );
    expect_row(rt, sent, "sent", script, turns);
    let holds = held(rt, ends.desk.desk.machine()) == told(script, counts);
    expect_row(rt, holds, "held", script, turns);
    let woken = (ends.waker.wakes, ends.waker.hop) == (script.woken.0, HopId(script.woken.1));
    expect_row(rt, woken, "woken", script, turns);
    // A sender that asks something listens first, and a receiver doesn't.
    let asks = matches!(script.worker, Worker::Sender(_)) && found[0] > 0;
    expect_row(
        rt,
        (ends.waker.listens > 0) == asks,
        "listens",
        script,
        turns,
    );
}

/// Checks a row of a worker.
fn expect_after<R: Abort + Wait>(rt: &R, alloc: Global, script: &Script, row: &Row) {
    let ends = left(rt, alloc, script, row.0, desk(rt, alloc, script));
    expect_found(rt, alloc, &ends, script, row);
}

/// Checks the rows of a script.
pub(super) fn expect_script<R: Abort + Wait>(rt: &R, alloc: Global, script: &Script) {
    for row in script.rows {
        expect_after(rt, alloc, script, row);
    }
}

/// Checks these scripts.
pub(super) fn expect_scripts<R: Abort + Wait>(rt: &R, alloc: Global, scripts: &[Script]) {
    for script in scripts {
        expect_script(rt, alloc, script);
    }
}
