//! A receiving worker.

use crate::script::{ANY, OF_7, RECEIVER, Row, Script, TO_7, expect_script};
use crate::workers::{Packets, Spool};
use rly_core::Params;
use std::alloc::Global;
use std::process::Abort;
use std::sync::Wait;

/// Data from station 3 to station 7, number 1, for hop 2: payload `000e42`.
const TO_HOP_2: &[u8] =
    b"\x52\x4c\x01\x01\x00\x03\x00\x07\x00\x00\x00\x00\x00\x00\x00\x01\x00\x03\x00\x0e\x42";

/// The same for a destination to which there is no route: payload `000d41`.
const TO_13: &[u8] =
    b"\x52\x4c\x01\x01\x00\x03\x00\x07\x00\x00\x00\x00\x00\x00\x00\x01\x00\x03\x00\x0d\x41";

/// The refusals of data: the spool is full, there is no route.
const IS_FULL: &[u8] = b"\x52\x4c\x01\x03\x00\x07\x00\x03\x00\x00\x00\x00\x00\x00\x00\x01\x06";

const NO_ROUTE: &[u8] = b"\x52\x4c\x01\x03\x00\x07\x00\x03\x00\x00\x00\x00\x00\x00\x00\x01\x02";

/// A receiver: the peer of the datagrams in its spool, and the hop whose sender it last woke; the spool's room in
/// datagrams, their number, the moment, and the number of times that it woke a sender. The packets received, the
/// packets sent, and the state found.
type Case<'a> = (
    &'a str,
    [u16; 2],
    [u64; 4],
    &'a [Packets<'a>],
    &'a [Packets<'a>],
    &'a [Row],
);

/// Checks a receiver. A datagram stored for hop 2 waits there.
fn expect_receiver<'a, R: Abort + Wait>(
    rt: &R,
    alloc: Global,
    (shows, [peer, hop], [items, first, start, woken], heard, sent, rows): Case<'a>,
) {
    let script = Script {
        shows,
        spool: Spool {
            params: Params {
                items,
                ..Params::DEFAULT
            },
            peer,
            first,
            second: 0,
        },
        start,
        heard,
        sent,
        other: [if hop == 2 { woken } else { 0 }, 0, 0],
        woken: (woken, hop),
        rows,
        ..RECEIVER
    };
    expect_script(rt, alloc, &script);
}

/// Checks these receivers.
fn expect_receivers<'a, R: Abort + Wait>(rt: &R, alloc: Global, cases: &[Case<'a>]) {
    for case in cases {
        expect_receiver(rt, alloc, *case);
    }
}

// Custody is sent of one stored datagram. In each of two turns the worker receives until there is no packet, first
// by a receive that waits: three receives, and one send.
const ANSWERED: [Case<'static>; 6] = [
    (
        "custody is sent",
        [1, 1],
        [1_024, 0, 150, 1],
        &[(0, TO_7, &[1])],
        &[(0, OF_7, &[1])],
        &[(2, [1, 1, 2, 4], [1, 0, 0])],
    ),
    (
        "a datagram is taken at the last moment that a plan may have, too",
        [1, 1],
        [1_024, 0, 4_503_599_627_370_495, 1],
        &[(0, TO_7, &[1])],
        &[(0, OF_7, &[1])],
        &[(2, [1, 1, 2, 4], [1, 0, 0])],
    ),
    // It isn't stored, since those before it are missing, and custody covers those that were: none.
    (
        "data under the last number of 64 bits is asked for",
        [1, 0],
        [1_024, 0, 150, 0],
        &[(
            0,
            b"\x52\x4c\x01\x01\x00\x03\x00\x07\xff\xff\xff\xff\xff\xff\xff\xff\x00\x03\x00\x0c\x41",
            &[255],
        )],
        &[(0, OF_7, &[0])],
        &[(2, [1, 1, 2, 4], [0, 0, 0])],
    ),
    // The datagrams in the spool are another peer's.
    (
        "a full spool is told of",
        [2, 0],
        [1, 1, 150, 0],
        &[(0, TO_7, &[1])],
        &[(0, IS_FULL, &[1])],
        &[(2, [1, 1, 2, 4], [1, 0, 0])],
    ),
    // A gap leads to a custody too.
    (
        "a refused one among them is told of, and after that the custody of those before it goes out",
        [1, 1],
        [1_024, 0, 150, 2],
        &[(0, TO_7, &[1, 2]), (0, TO_13, &[3]), (0, TO_7, &[4])],
        &[(0, NO_ROUTE, &[3]), (0, OF_7, &[2])],
        &[(1, [4, 2, 1, 7], [2, 0, 0])],
    ),
    (
        "a receiver has all its turns",
        [1, 0],
        [1_024, 0, 150, 0],
        &[],
        &[],
        &[(10_000, [0, 0, 10_000, 10_000], [0, 0, 0])],
    ),
];

/// Numbers 1 to 70.
const SEVENTY: &[u8] = &[
    1, 2, 3, 4, 5, 6, 7, 8, 9, 10, 11, 12, 13, 14, 15, 16, 17, 18, 19, 20, 21, 22, 23, 24, 25, 26,
    27, 28, 29, 30, 31, 32, 33, 34, 35, 36, 37, 38, 39, 40, 41, 42, 43, 44, 45, 46, 47, 48, 49, 50,
    51, 52, 53, 54, 55, 56, 57, 58, 59, 60, 61, 62, 63, 64, 65, 66, 67, 68, 69, 70,
];

const WINDOWS: [Case<'static>; 2] = [
    (
        "64 of 70 are taken in one turn",
        [1, 1],
        [1_024, 0, 150, 64],
        &[(0, TO_7, SEVENTY)],
        &[(0, OF_7, &[64])],
        &[(1, [64, 1, 1, 65], [64, 0, 0])],
    ),
    // The second turn has the other six receives, and one that finds nothing.
    (
        "what is left is taken in the next turn",
        [1, 1],
        [1_024, 0, 150, 70],
        &[(0, TO_7, SEVENTY)],
        &[(0, OF_7, &[64, 70])],
        &[(2, [70, 2, 2, 73], [70, 0, 0])],
    ),
];

/// A datagram comes three times in one turn.
const WAKES: [Case<'static>; 4] = [
    (
        "what is taken wakes once",
        [1, 1],
        [1_024, 0, 150, 1],
        &[(0, TO_7, &[1, 1, 1])],
        &[(0, OF_7, &[1])],
        &[(4, [3, 1, ANY, ANY], [1, 0, 0])],
    ),
    (
        "it wakes the sender to its hop",
        [1, 2],
        [1_024, 0, 150, 1],
        &[(0, TO_HOP_2, &[1, 1, 1])],
        &[(0, OF_7, &[1])],
        &[(4, [3, 1, ANY, ANY], [0, 0, 0])],
    ),
    (
        "what was taken before wakes none",
        [1, 0],
        [8, 1, 150, 0],
        &[(0, TO_7, &[1, 1, 1])],
        &[(0, OF_7, &[1])],
        &[(4, [3, 1, ANY, ANY], [1, 0, 0])],
    ),
    (
        "what finds no room wakes none",
        [2, 0],
        [1, 1, 150, 0],
        &[(0, TO_7, &[1, 1, 1])],
        &[(0, IS_FULL, &[1, 1, 1])],
        &[(4, [3, 3, ANY, ANY], [1, 0, 0])],
    ),
];

/// A received packet is answered as each case says. A window is taken in one turn, by one receive that waits, and one
/// custody is sent: that of the greatest number. The worker wakes the hop's sender for each stored datagram, and for no
/// other.
const TABLES: [&[Case<'static>]; 3] = [&ANSWERED, &WINDOWS, &WAKES];

/// Checks the receivers of each table.
fn expect_tables<R: Abort + Wait>(rt: &R, alloc: Global, tables: &[&[Case]]) {
    for cases in tables {
        expect_receivers(rt, alloc, *cases);
    }
}

#[test]
fn each_receiver_does_as_its_case_says(rt: HostRuntime) {
    expect_tables(&rt, rt.alloc(), &TABLES);
}
