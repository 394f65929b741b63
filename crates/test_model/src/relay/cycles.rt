//! Three cycles, on two segments, on three and on four: 32 datagrams are taken, picked and
//! fetched, and from the second cycle on those of the cycle before are released.
use crate::relay::script::{Act, NONE, Row, Told, expect_round, new_relay, open_again};
use rly_core::{Geometry, Params};
use rly_disk::Torn;
use rly_world_relay::Relay;
use std::alloc::Global;
use std::process::Abort;

/// The smallest device of two segments for 64 datagrams of 1,200 bytes.
pub(crate) const DEVICE: Geometry = Geometry {
    params: Params {
        hops: 1,
        peers: 1,
        window: 64,
        items: 64,
        bytes: 76_800,
        maxpacket: 1_500,
        target: 5_000,
        interval: 100_000,
        payload: 1_200,
    },
    segments: 2,
    length: 156_908,
};

/// The smallest devices of two, three and four segments for them.
const DEVICES: [Geometry; 3] = [
    DEVICE,
    Geometry {
        segments: 3,
        length: 118_508,
        ..DEVICE
    },
    Geometry {
        segments: 4,
        length: 105_708,
        ..DEVICE
    },
];

/// The bytes of a datagram.
const LENGTH: usize = 1_200;

/// The request of a round, for consecutive numbers.
#[derive(Clone, Copy)]
pub(crate) enum Kind {
    Take,
    Pick,
    Fetch,
    Release,
    Show,
}

/// Returns the request for a number, and its expected reply. The datagram has this id.
fn row_of(kind: Kind, number: u64, id: u64) -> Row {
    match kind {
        Kind::Take => (Act::Take(number, 0, LENGTH), Told::Taken(id)),
        Kind::Pick => (Act::Pick(0), Told::Picked(number, id, NONE, NONE)),
        Kind::Fetch => (
            Act::Fetch(number),
            Told::Bytes(0, Some(number.to_le_bytes()[0]), LENGTH),
        ),
        Kind::Release => (Act::Release(number), Told::Released(32)),
        Kind::Show => (Act::Show, Told::Shown((96, 0, 32, 0, 0, 64))),
    }
}

/// A round: the request, the first number, its datagram's id, and the count of numbers.
pub(crate) type Round = (Kind, (u64, u64), u64);

/// Returns the requests of a round, and their expected replies.
pub(crate) fn rows_of<R: Abort>(rt: &R, alloc: Global, round: Round) -> Vec<Row> {
    let (kind, (first, first_id), count) = round;
    let mut rows = Vec::new(alloc);
    for index in 0..count {
        let row = row_of(
            kind,
            first.saturating_add(index),
            first_id.saturating_add(index),
        );
        rows.push(row).expect(rt, "memory");
    }
    rows
}

/// Runs these rounds.
pub(crate) fn expect_rounds<R: Abort>(rt: &R, alloc: Global, relay: &mut Relay, rounds: &[Round]) {
    for round in rounds {
        expect_round(rt, alloc, relay, &rows_of(rt, alloc, *round));
    }
}

/// Three cycles. An id is the position of its take: a cycle accepts 32 takes and 32 picks, and from the second on a
/// release.
const CYCLES: [Round; 12] = [
    (Kind::Take, (1, 1), 32),
    (Kind::Pick, (1, 1), 32),
    (Kind::Fetch, (1, 0), 32),
    (Kind::Take, (33, 65), 32),
    (Kind::Pick, (33, 65), 32),
    (Kind::Fetch, (1, 0), 64),
    (Kind::Release, (32, 0), 1),
    (Kind::Take, (65, 130), 32),
    (Kind::Pick, (65, 130), 32),
    (Kind::Fetch, (33, 0), 64),
    (Kind::Release, (64, 0), 1),
    SHOWN,
];

/// The counters after them.
const SHOWN: Round = (Kind::Show, (1, 0), 1);

/// Runs them, and crashes.
fn cycle<R: Abort>(rt: &R, alloc: Global, relay: &mut Relay, rounds: &[Round]) {
    expect_rounds(rt, alloc, relay, rounds);
    open_again(rt, relay, Torn::AsSynced);
    expect_rounds(rt, alloc, relay, &[SHOWN]);
}

/// Runs them on a new device.
fn expect_cycles_on<R: Abort>(rt: &R, alloc: Global, device: &Geometry) {
    let mut relay = new_relay(rt, alloc, device);
    cycle(rt, alloc, &mut relay, &CYCLES);
}

/// Runs them on each of these.
fn expect_cycles<R: Abort>(rt: &R, alloc: Global, devices: &[Geometry]) {
    for device in devices {
        expect_cycles_on(rt, alloc, device);
    }
}

#[test]
fn three_cycles(rt: HostRuntime) {
    expect_cycles(&rt, rt.alloc(), &DEVICES);
}
