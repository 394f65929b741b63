//! A sending worker.
//!
//! The expected rows follow from docs/PROTOCOL.md, "The sending core".

use crate::script::{
    ANY, HEARD_9, HEARD_10, HEARD_AFTER_1, OF_9, ONE, Row, SENDER, Script, TO_9, expect_script,
    expect_scripts,
};
use crate::workers::{Packets, Spool};
use rly_core::{Params, Refusal};
use std::alloc::Global;
use std::process::Abort;
use std::sync::Wait;

/// A sender to hop 1: the number of waiting datagrams, and the window; the moment of the first turn, and the length
/// of each turn and each call; and the call of its link that fails. The packets received, the packets sent, in
/// order, and the effects.
type Case<'a> = (
    &'a str,
    [u64; 6],
    &'a [Packets<'a>],
    &'a [Packets<'a>],
    &'a [Row],
);

/// A spool with this many waiting datagrams, and a window of 64.
fn queue(first: u64) -> Spool {
    Spool {
        params: Params {
            window: 64,
            ..Params::DEFAULT
        },
        peer: 1,
        first,
        second: 0,
    }
}

const CONTACTS: [Case<'static>; 4] = [
    // It waits after the datagram was sent, and after each Pick that found nothing.
    (
        "a sender asks for the window, picks, fetches and sends, and releases what is kept, beside which it picks",
        [1, 1, 150, 1, 0, 0],
        &[(3, OF_9, &[1])],
        &[(0, TO_9, &[1, 1, 1])],
        &[
            (1, [1, 0, 0, ANY], [1, 0, 0]),
            (2, [2, 0, 0, ANY], [0, 1, 0]),
            (3, [3, 1, 0, ANY], [0, 1, 0]),
            (4, [5, 1, 1, ANY], [0, 0, 1]),
            (5, [6, 1, 2, ANY], [0, 0, 1]),
            (6, [7, 1, 3, ANY], [0, 0, 1]),
            (7, [8, 1, 4, ANY], [0, 0, 1]),
        ],
    ),
    (
        "outside of a contact it asks for the window, and does nothing more but wait",
        [1, 1, 200, 1, 0, 0],
        &[],
        &[(0, TO_9, &[1, 1, 1])],
        &[(64, [1, 0, 63, ANY], [1, 0, 0])],
    ),
    (
        "after the end of a contact a release is made alone",
        [2, 1, 140, 20, 0, 0],
        &[(3, OF_9, &[1])],
        &[(0, TO_9, &[1, 1, 1])],
        &[(6, [4, 1, ANY, ANY], [1, 0, 1])],
    ),
    // All turns waited but the first three, which had work left, and the fourth, whose contact had ended.
    (
        "what was fetched within a contact and answered after its end is held back, and sent as the next contact opens",
        [1, 1, 130, 10, 20, 0],
        &[],
        &[(0, TO_9, &[1, 1, 1])],
        &[
            (3, [ANY, 0, 0, ANY], [0, 1, 0]),
            (11, [ANY, 0, 7, ANY], [0, 1, 0]),
            (12, [ANY, 1, 8, ANY], [0, 1, 0]),
        ],
    ),
];

const BATCHES: [Case<'static>; 5] = [
    // The first turn asks for the window. Then Picks and the Fetches of the picked datagrams alternate: 1, 2, 4 and
    // 3 of each, since the initial window is ten. The others stay in the spool.
    (
        "a long queue is asked for by ever more Picks together, and what they picked goes out together, ten in all",
        [70, 64, 1_000, 1, 0, 0],
        &[],
        &[(0, TO_9, &[1, 2, 3, 4, 5, 6, 7, 8, 9, 10])],
        &[
            (1, [1, 0, ANY, ANY], [70, 0, 0]),
            (2, [2, 0, ANY, ANY], [69, 1, 0]),
            (3, [3, 1, ANY, ANY], [69, 1, 0]),
            (4, [5, 1, ANY, ANY], [67, 3, 0]),
            (5, [7, 3, ANY, ANY], [67, 3, 0]),
            (6, [11, 3, ANY, ANY], [63, 7, 0]),
            (7, [15, 7, ANY, ANY], [63, 7, 0]),
            (8, [18, 7, ANY, ANY], [60, 10, 0]),
            (9, [21, 10, ANY, ANY], [60, 10, 0]),
            (10, [21, 10, ANY, ANY], [60, 10, 0]),
            (40, [21, 10, ANY, ANY], [60, 10, 0]),
        ],
    ),
    // Each turn takes a millisecond. The eleventh receives the custody of the tenth, two turns after it was sent, and
    // eight turns after the first was. Ten were heard in these eight turns: twenty may be on the way, and in each turn
    // 20 / 8 of them go out. After two turns five do: five Picks are submitted beside the Release, and from then on five
    // Picks and their Fetches alternate, up to twenty.
    (
        "twice as many as were covered may be on the way after a round trip, and go out one after the other",
        [70, 64, 1_000, 1_000, 0, 0],
        &[(10, OF_9, &[10])],
        &[(
            0,
            TO_9,
            &[
                1, 2, 3, 4, 5, 6, 7, 8, 9, 10, 11, 12, 13, 14, 15, 16, 17, 18, 19, 20, 21, 22, 23,
                24, 25, 26, 27, 28, 29, 30,
            ],
        )],
        &[
            (10, [21, 10, ANY, ANY], [60, 10, 0]),
            (11, [27, 10, ANY, ANY], [55, 5, 10]),
            (12, [32, 15, ANY, ANY], [55, 5, 10]),
            (13, [37, 15, ANY, ANY], [50, 10, 10]),
            (14, [42, 20, ANY, ANY], [50, 10, 10]),
            (17, [57, 25, ANY, ANY], [40, 20, 10]),
            (18, [62, 30, ANY, ANY], [40, 20, 10]),
            (40, [62, 30, ANY, ANY], [40, 20, 10]),
        ],
    ),
    // Picks and the Fetches of the picked datagrams alternate: 1, 2 and 1 of each. The 20th turn receives the
    // custody of the third. The first was sent 17 turns before it and the fourth 13, in which 4 * 13 / 17, that are
    // three, may go out. Its Release and three Picks are submitted together, and the next turn fetches the
    // picked datagrams. Then the core can only receive.
    (
        "what may be in flight after a release is picked beside it, in one round",
        [10, 4, 1_000, 1, 0, 0],
        &[(19, OF_9, &[3])],
        &[(0, TO_9, &[1, 2, 3, 4, 5, 6, 7])],
        &[
            (6, [8, 3, ANY, ANY], [6, 4, 0]),
            (7, [9, 4, ANY, ANY], [6, 4, 0]),
            (19, [9, 4, ANY, ANY], [6, 4, 0]),
            (20, [13, 4, ANY, ANY], [3, 4, 3]),
            (21, [16, 7, ANY, ANY], [3, 4, 3]),
            (22, [16, 7, ANY, ANY], [3, 4, 3]),
        ],
    ),
    // Of the two Picks of the fourth turn one finds nothing, so that one is submitted per turn from there on. Each
    // turn waits after one whose Pick found nothing.
    (
        "a hop for which nothing waits is asked for by one Pick a turn",
        [2, 64, 1_000, 1, 0, 0],
        &[],
        &[(0, TO_9, &[1, 2])],
        &[
            (3, [3, 1, 0, ANY], [1, 1, 0]),
            (4, [5, 1, 0, ANY], [0, 2, 0]),
            (5, [6, 2, 0, ANY], [0, 2, 0]),
            (6, [7, 2, 0, ANY], [0, 2, 0]),
            (7, [8, 2, 1, ANY], [0, 2, 0]),
            (20, [21, 2, 14, ANY], [0, 2, 0]),
        ],
    ),
    // 70 copies of a custody arrive from the fourth turn on. Before it the worker received three times and sent one
    // datagram. The fourth turn receives 64 of the copies, and makes a release and a pick for them. The fifth
    // receives the other six and then nothing.
    (
        "a turn hears what the link has, 64 packets at most, and makes one release for them",
        [1, 1, 1_000, 1, 0, 0],
        &[(3, OF_9, &[1]), (0, OF_9, &[1; 69])],
        &[(0, TO_9, &[1, 1, 1])],
        &[
            (3, [3, 1, ANY, 4], [0, 1, 0]),
            (4, [5, 1, ANY, 68], [0, 0, 1]),
            (5, [6, 1, ANY, 75], [0, 0, 1]),
            (6, [7, 1, ANY, 76], [0, 0, 1]),
        ],
    ),
];

const AGAIN: [Case<'static>; 2] = [
    // The third turn sends the first of seven datagrams, and the seventh the last four. A second after the third
    // turn the first is sent again, alone. Its custody is received two turns later. Nothing was heard before that
    // timeout, so the second is sent again by a timeout too, two seconds later: custody of a number that was sent
    // twice yields no sample, and leaves the wait doubled. From then on each follows the custody of the one before.
    (
        "after a timeout what was on its way goes out again one by one",
        [7, 7, 1_000, 10_000, 0, 0],
        &[(104, OF_9, &[1]), (202, OF_9, &[2])],
        &[(0, TO_9, &[1, 2, 3, 4, 5, 6, 7, 1, 2, 3])],
        &[
            (7, [ANY, 7, ANY, ANY], [0, 7, 0]),
            (102, [ANY, 7, ANY, ANY], [0, 7, 0]),
            (103, [ANY, 8, ANY, ANY], [0, 7, 0]),
            (104, [ANY, 8, ANY, ANY], [0, 7, 0]),
            (105, [ANY, 8, ANY, ANY], [0, 6, 1]),
            (304, [ANY, 8, ANY, ANY], [0, 6, 1]),
            (305, [ANY, 9, ANY, ANY], [0, 6, 1]),
            (306, [ANY, 9, ANY, ANY], [0, 6, 1]),
            (307, [ANY, 10, ANY, ANY], [0, 5, 2]),
        ],
    ),
    // The 23rd turn receives the first one's custody, a second after it was sent. From this the round trip is 1 s and the
    // wait 1 s + 4 * 0.5 s = 3 s, which is 60 turns. Two round trips after the custody, in which nothing was heard, the
    // last number goes out again as a probe, and by a timeout 60 turns after that.
    (
        "a custody that is heard when a timeout is due is released, and what is still in flight isn't sent before the probe",
        [2, 2, 1_000, 50_000, 0, 0],
        &[(22, OF_9, &[1])],
        &[(0, TO_9, &[1, 2, 2, 2])],
        &[
            (23, [ANY, 2, ANY, ANY], [0, 1, 1]),
            (62, [ANY, 2, ANY, ANY], [0, 1, 1]),
            (63, [ANY, 3, ANY, ANY], [0, 1, 1]),
            (122, [ANY, 3, ANY, ANY], [0, 1, 1]),
            (123, [ANY, 4, ANY, ANY], [0, 1, 1]),
        ],
    ),
];

/// A datagram is sent in turn 3, and again one, two and four seconds after it was last sent, in turns 13, 33 and
/// 73.
const AFTER_A_FAILURE: [Case<'static>; 3] = [
    (
        "the first send fails, and is made again after the next timeout",
        [1, 1, 1_000, 100_000, 0, 4],
        &[],
        &[(0, TO_9, &[1])],
        &[
            (3, [ANY, 0, ANY, ANY], [0, 1, 0]),
            (12, [ANY, 0, ANY, ANY], [0, 1, 0]),
            (13, [ANY, 1, ANY, ANY], [0, 1, 0]),
        ],
    ),
    (
        "the second send fails",
        [1, 1, 1_000, 100_000, 0, 15],
        &[],
        &[(0, TO_9, &[1, 1])],
        &[
            (13, [ANY, 1, ANY, ANY], [0, 1, 0]),
            (32, [ANY, 1, ANY, ANY], [0, 1, 0]),
            (33, [ANY, 2, ANY, ANY], [0, 1, 0]),
        ],
    ),
    (
        "the third send fails",
        [1, 1, 1_000, 100_000, 0, 36],
        &[],
        &[(0, TO_9, &[1, 1, 1])],
        &[
            (33, [ANY, 2, ANY, ANY], [0, 1, 0]),
            (72, [ANY, 2, ANY, ANY], [0, 1, 0]),
            (73, [ANY, 3, ANY, ANY], [0, 1, 0]),
        ],
    ),
];

/// Seven datagrams wait, all of which fit the window. The asks are the window's; a Pick and its Fetch; two Picks
/// and their Fetches; four Picks, which are asks 8 to 11; and their Fetches, which are asks 12 to 15.
const SEVEN: Script<'static> = Script {
    spool: Spool { first: 7, ..ONE },
    window: 7,
    sent: &[(0, TO_9, &[1, 2, 3, 4, 5, 6, 7])],
    ..SENDER
};

const REFUSALS: [Script<'static>; 2] = [
    // Fetch 5 of four is refused. Payloads fetched after it aren't sent, and are fetched again with it in the next
    // turn.
    Script {
        shows: "a refused Fetch sends nothing",
        lost: (13, Refusal::OutOfMemory),
        rows: &[
            (7, [15, 4, ANY, ANY], [0, 7, 0]),
            (64, [18, 7, ANY, ANY], [0, 7, 0]),
        ],
        ..SEVEN
    },
    // Of four Picks the second is answered as unsure. So the window is asked for, which has the datagrams of all
    // four, and the whole flight is sent.
    Script {
        shows: "a Pick that is unsure is found",
        lost: (9, Refusal::Unsure),
        sent: &[(0, TO_9, &[1, 2, 3, 1, 2, 3, 4, 5, 6, 7])],
        rows: &[
            (7, [12, 3, ANY, ANY], [0, 7, 0]),
            (64, [19, 10, ANY, ANY], [0, 7, 0]),
        ],
        ..SEVEN
    },
];

/// Without packets received the third turn sends the datagram. The first turn from a second after that on sends it
/// again, and the first from two seconds after that on once more. All turns wait but the first three.
const TIMEOUTS: [Case<'static>; 5] = [
    (
        "turns of 10 ms",
        [1, 1, 1_000, 10_000, 0, 0],
        &[],
        &[(0, TO_9, &[1, 1, 1])],
        &[
            (102, [3, 1, 99, ANY], [0, 1, 0]),
            (103, [4, 2, 100, ANY], [0, 1, 0]),
            (302, [4, 2, 299, ANY], [0, 1, 0]),
            (303, [5, 3, 300, ANY], [0, 1, 0]),
        ],
    ),
    (
        "turns of a little less",
        [1, 1, 1_000, 9_999, 0, 0],
        &[],
        &[(0, TO_9, &[1, 1, 1])],
        &[
            (103, [3, 1, 100, ANY], [0, 1, 0]),
            (104, [4, 2, 101, ANY], [0, 1, 0]),
        ],
    ),
    (
        "turns of 2.5 ms",
        [1, 1, 1_000, 2_500, 0, 0],
        &[],
        &[(0, TO_9, &[1, 1, 1])],
        &[
            (402, [3, 1, 399, ANY], [0, 1, 0]),
            (403, [4, 2, 400, ANY], [0, 1, 0]),
        ],
    ),
    // The second begins once the call that fetched the datagram is answered.
    (
        "calls of 100 ms",
        [1, 1, 1_000, 10_000, 100_000, 0],
        &[],
        &[(0, TO_9, &[1, 1, 1])],
        &[
            (102, [3, 1, 99, ANY], [0, 1, 0]),
            (103, [4, 2, 100, ANY], [0, 1, 0]),
        ],
    ),
    (
        "turns of 50 ms",
        [1, 1, 1_000, 50_000, 0, 0],
        &[],
        &[(0, TO_9, &[1, 1, 1])],
        &[
            (22, [3, 1, 19, ANY], [0, 1, 0]),
            (23, [4, 2, 20, ANY], [0, 1, 0]),
        ],
    ),
];

/// Packets that are no message for the sender, a custody of a number not in flight, a Heard from above the flight, one
/// of another station, and one of numbers that aren't in flight. One comes in each turn, by the first of its two
/// receives.
const STRAYS: [&[Packets<'static>]; 6] = [
    &[(0, b"x", &[1]), (1, b"x", &[1; 402])],
    &[(0, TO_9, &[1]), (1, TO_9, &[1; 402])],
    &[(0, OF_9, &[2]), (1, OF_9, &[2; 402])],
    &[(0, HEARD_9, &[2]), (1, HEARD_9, &[2; 402])],
    &[(0, HEARD_10, &[1]), (1, HEARD_10, &[1; 402])],
    &[(0, HEARD_AFTER_1, &[0]), (1, HEARD_AFTER_1, &[0; 402])],
];

/// Checks a sender that receives this.
fn expect_sender<'a, R: Abort + Wait>(
    rt: &R,
    alloc: Global,
    (shows, [first, window, start, step, call, fails_at], _, sent, rows): Case<'a>,
    heard: &'a [Packets<'a>],
) {
    let script = Script {
        shows,
        spool: queue(first),
        window,
        heard,
        fails_at,
        start,
        step,
        call,
        sent,
        rows,
        ..SENDER
    };
    expect_script(rt, alloc, &script);
}

/// Checks these senders.
fn expect_senders<'a, R: Abort + Wait>(rt: &R, alloc: Global, cases: &[Case<'a>]) {
    for case in cases {
        expect_sender(rt, alloc, *case, case.2);
    }
}

/// Checks these senders with these packets received.
fn expect_stray<'a, R: Abort + Wait>(
    rt: &R,
    alloc: Global,
    heard: &'a [Packets<'a>],
    cases: &[Case<'a>],
) {
    for case in cases {
        expect_sender(rt, alloc, *case, heard);
    }
}

/// A datagram is sent only within a contact. Datagrams fetched together are sent together, and released together. The
/// flight is sent again one by one, and not while custody is received; after a second, and then after twice as long,
/// however many turns that takes. A send that fails is made again then.
const TABLES: [&[Case<'static>]; 5] = [&CONTACTS, &BATCHES, &AGAIN, &AFTER_A_FAILURE, &TIMEOUTS];

/// Checks the senders of each table.
fn expect_tables<R: Abort + Wait>(rt: &R, alloc: Global, tables: &[&[Case]]) {
    for cases in tables {
        expect_senders(rt, alloc, *cases);
    }
}

/// Whichever stray is received, the flight is sent as often as without, and the receives wait as often.
fn expect_strays<'a, R: Abort + Wait>(rt: &R, alloc: Global, strays: &[&'a [Packets<'a>]]) {
    for stray in strays {
        expect_stray(rt, alloc, *stray, &TIMEOUTS);
    }
}

#[test]
fn each_sender_does_as_its_case_says(rt: HostRuntime) {
    expect_tables(&rt, rt.alloc(), &TABLES);
    expect_strays(&rt, rt.alloc(), &STRAYS);
}

/// One call is refused, among others that are submitted together.
#[test]
fn one_call_is_refused(rt: HostRuntime) {
    expect_scripts(&rt, rt.alloc(), &REFUSALS);
}
