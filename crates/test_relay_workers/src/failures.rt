//! A link of which one call fails, for each of its calls in 64 turns.
//!
//! The expected rows follow from docs/PROTOCOL.md. A worker receives until there is no packet, so
//! 64 turns without packets are 64 receives. The sends of a turn come after its receives. A
//! receive that fails returns no packet. A packet whose send fails is lost, and the worker
//! continues as if it had been sent.

use crate::script::{
    ANY, Counts, Done, EMPTY, OF_7, OF_9, OF_10, RECEIVER, SENDER, Script, TO_7, TO_10,
    expect_script, expect_scripts,
};
use crate::workers::Spool;
use rly_core::HopId;
use rly_link::Worker;
use std::alloc::Global;
use std::process::Abort;
use std::sync::Wait;

/// A worker over a link of which one call fails.
struct Failing {
    script: Script<'static>,
    /// Its effects if no call fails, and the counts of its hop, whichever fails.
    done: Done,
    counts: Counts,
    /// The calls that send: if one of them fails, one packet less is sent.
    sends: &'static [u64],
    /// Calls that receive, and its effects if one of them fails.
    hears: &'static [(&'static [u64], Done)],
}

/// Receivers and senders, each with its exact number of calls.
const ROWS: [Failing; 4] = [
    // A receiver whose neighbour sends its datagram in each fourth turn. Three turns have the receive of the
    // datagram, one that finds no more, the send of its custody and two more receives, so 16 of them have 80. The
    // other 16 of 64 turns have a receive each.
    Failing {
        script: Script {
            shows: "the datagram is taken once, and each copy that is heard is acknowledged",
            heard: &[(0, TO_7, &[1]), (3, TO_7, &[1; 15])],
            sent: &[(0, OF_7, &[1; 16])],
            ..RECEIVER
        },
        done: [16, 16, 64, 96],
        counts: [1, 0, 0],
        sends: &[3, 8, 13, 18, 23, 28, 33, 38, 43, 48, 53, 58, 63, 68, 73, 78],
        // The turn of a datagram that isn't received has no other receive, and no call of the desk and no send.
        hears: &[(
            &[1, 6, 11, 16, 21, 26, 31, 36, 41, 46, 51, 56, 61, 66, 71, 76],
            [15, 15, 64, 94],
        )],
    },
    // It asks for the window, picks, and fetches three times: the datagram is sent in the third turn, a second or
    // ten turns later, and 20 turns after that, and stays in flight. The first three turns don't wait, since
    // they have something to do. Once the datagram was sent the core can only receive.
    Failing {
        script: IN_SILENCE,
        done: [5, 3, 61, 67],
        counts: [0, 1, 0],
        sends: &[4, 15, 36],
        hears: &[],
    },
    // The neighbour acknowledges the datagram in receives 40 and 56, counted from 0. It is sent three times, as
    // without packets. The first custody is received in turn 41, by call 44, and the second in turn 56, by call 60.
    // In turn 41 the datagram was sent last 800 ms ago, less than 7/8 of a round trip, which is a second at first. So
    // an earlier sending was heard, and the round goes on.
    // Each of these turns has one more receive, which finds nothing. The sender releases, and asks for the next
    // datagram with the release and in each turn after it, without success. The first three turns don't wait.
    Failing {
        script: Script {
            shows: "the datagram is released once its custody was heard, and doesn't go out after that",
            heard: &[(40, OF_9, &[1]), (15, OF_9, &[1])],
            ..IN_SILENCE
        },
        done: [30, 3, 61, 69],
        counts: [0, 0, 1],
        sends: &[4, 15, 36],
        hears: &[
            // The first custody isn't received: the datagram is released in turn 57, with a Pick beside it, and each
            // turn after it has one. The round began with the Timeout of turn 33 and took 24 turns. One may go out in
            // that time, and the last did so in turn 33.
            (&[44], [14, 3, 61, 68]),
            // The second custody isn't received: then its turn has no other receive.
            (&[60], [30, 3, 61, 68]),
        ],
    },
    // Its `resend` of three seconds is 30 turns, so the datagram is sent in turns 3 and 33.
    Failing {
        script: AT_HOP_2,
        done: [4, 2, 61, 66],
        counts: [0, 1, 0],
        sends: &[4, 35],
        hears: &[],
    },
];

/// The sender of hop 1, in turns of 100 ms.
const IN_SILENCE: Script<'static> = Script {
    shows: "in silence the datagram stays in flight, and a send that fails changes nothing but that it doesn't go out",
    step: 100_000,
    ..SENDER
};

/// The sender of hop 2. A datagram waits for hop 1 too, and stays there.
const AT_HOP_2: Script<'static> = Script {
    shows: "a second hop has a `resend`, a flight and a queue of its own",
    worker: Worker::Sender(HopId(2)),
    spool: Spool {
        first: 1,
        second: 1,
        ..EMPTY
    },
    sent: &[(0, TO_10, &[1, 1])],
    other: [1, 0, 0],
    ..IN_SILENCE
};

/// The effects of a worker if this call fails.
fn done_where(row: &Failing, fails_at: u64) -> Done {
    for (calls, done) in row.hears {
        if calls.contains(&fails_at) {
            return *done;
        }
    }
    let [asked, sent, waits, calls] = row.done;
    let lost = u64::from(row.sends.contains(&fails_at));
    [asked, sent.saturating_sub(lost), waits, calls]
}

/// Checks a worker if this call fails.
fn expect_call<R: Abort + Wait>(rt: &R, alloc: Global, row: &Failing, fails_at: u64) {
    let script = Script {
        fails_at,
        rows: &[(64, done_where(row, fails_at), row.counts)],
        ..row.script
    };
    expect_script(rt, alloc, &script);
}

/// Checks a worker, whichever of its calls fails, or none.
fn expect_calls<R: Abort + Wait>(rt: &R, alloc: Global, row: &Failing) {
    for fails_at in 0..=row.done[3].saturating_add(1) {
        expect_call(rt, alloc, row, fails_at);
    }
}

fn expect_workers<R: Abort + Wait>(rt: &R, alloc: Global, rows: &[Failing]) {
    for row in rows {
        expect_calls(rt, alloc, row);
    }
    expect_scripts(rt, alloc, &ACKNOWLEDGED);
}

/// Whichever call fails, a worker continues. Only a second hop's own station acknowledges for it.
#[test]
fn a_worker_goes_on(rt: HostRuntime) {
    expect_workers(&rt, rt.alloc(), &ROWS);
}

/// It has sent its datagram twice before it receives a custody.
const ACKNOWLEDGED: [Script<'static>; 2] = [
    Script {
        shows: "custody of the first hop's station releases nothing of the second hop",
        heard: &[(40, OF_9, &[1])],
        rows: &[(64, [ANY, 2, ANY, ANY], [0, 1, 0])],
        ..AT_HOP_2
    },
    Script {
        shows: "custody of its own station releases its datagram",
        heard: &[(40, OF_10, &[1])],
        rows: &[(64, [ANY, 2, ANY, ANY], [0, 0, 1])],
        ..AT_HOP_2
    },
];
