//! Datagrams with age limits: in records, in the head of a segment that is opened, over crashes and
//! openings, until a pick finds them expired. `test_journal_stops` fails each device call of such
//! rounds.
use crate::relay::script::{
    Act, NONE, Row, Told, expect_alone, expect_round, new_relay, open_again,
};
use rly_core::{Geometry, Params, Refusal};
use rly_disk::Torn;
use rly_world_relay::Relay;
use std::alloc::Global;
use std::process::Abort;

/// The smallest device of two segments for 16 datagrams and 4,096 bytes.
const SMALL: Geometry = Geometry {
    params: Params {
        hops: 1,
        peers: 1,
        window: 16,
        items: 16,
        bytes: 4_096,
        maxpacket: 1_500,
        target: 5_000,
        interval: 100_000,
        payload: 1_200,
    },
    segments: 2,
    length: 82_908,
};

/// A limit. All datagrams come at time 0, so this is also the last time at which one hasn't expired.
const LIMIT: u64 = 10;

/// The first time at which one has expired.
const LATE: u64 = 11;

/// The bytes of a datagram. Two groups of eight and one of as many picks end at 93 + 2 * (7 + 8 * (23 + 255)) + 7 + 8 *
/// 11 = 4,650, after which the largest group of 78,280 bytes doesn't fit: a segment is due.
const LENGTH: usize = 255;

/// An act on a relay.
#[derive(Clone, Copy)]
enum Stage {
    /// A round of these requests.
    Round(&'static [Row]),
    /// Each of these requests in a round of its own.
    Alone(&'static [Row]),
    /// It crashes between two syncs, and is reopened.
    Crash,
}

/// Every other datagram of the first eight has a limit.
const FIRST_TAKEN: [Row; 8] = [
    (Act::Take(1, LIMIT, LENGTH), Told::Taken(1)),
    (Act::Take(2, 0, LENGTH), Told::Taken(2)),
    (Act::Take(3, LIMIT, LENGTH), Told::Taken(3)),
    (Act::Take(4, 0, LENGTH), Told::Taken(4)),
    (Act::Take(5, LIMIT, LENGTH), Told::Taken(5)),
    (Act::Take(6, 0, LENGTH), Told::Taken(6)),
    (Act::Take(7, LIMIT, LENGTH), Told::Taken(7)),
    (Act::Take(8, 0, LENGTH), Told::Taken(8)),
];

/// Each of the second eight but the last.
const SECOND_TAKEN: [Row; 8] = [
    (Act::Take(9, LIMIT, LENGTH), Told::Taken(9)),
    (Act::Take(10, LIMIT, LENGTH), Told::Taken(10)),
    (Act::Take(11, LIMIT, LENGTH), Told::Taken(11)),
    (Act::Take(12, LIMIT, LENGTH), Told::Taken(12)),
    (Act::Take(13, LIMIT, LENGTH), Told::Taken(13)),
    (Act::Take(14, LIMIT, LENGTH), Told::Taken(14)),
    (Act::Take(15, LIMIT, LENGTH), Told::Taken(15)),
    (Act::Take(16, 0, LENGTH), Told::Taken(16)),
];

/// The first eight go into flight in time, and as many wait after them.
const FIRST_PICKED: [Row; 8] = [
    (Act::Pick(LIMIT), Told::Picked(1, 1, NONE, NONE)),
    (Act::Pick(LIMIT), Told::Picked(2, 2, NONE, NONE)),
    (Act::Pick(LIMIT), Told::Picked(3, 3, NONE, NONE)),
    (Act::Pick(LIMIT), Told::Picked(4, 4, NONE, NONE)),
    (Act::Pick(LIMIT), Told::Picked(5, 5, NONE, NONE)),
    (Act::Pick(LIMIT), Told::Picked(6, 6, NONE, NONE)),
    (Act::Pick(LIMIT), Told::Picked(7, 7, NONE, NONE)),
    (Act::Pick(LIMIT), Told::Picked(8, 8, NONE, NONE)),
];

const FIRST_FETCHED: [Row; 8] = [
    (Act::Fetch(1), Told::Bytes(LIMIT, Some(1), LENGTH)),
    (Act::Fetch(2), Told::Bytes(0, Some(2), LENGTH)),
    (Act::Fetch(3), Told::Bytes(LIMIT, Some(3), LENGTH)),
    (Act::Fetch(4), Told::Bytes(0, Some(4), LENGTH)),
    (Act::Fetch(5), Told::Bytes(LIMIT, Some(5), LENGTH)),
    (Act::Fetch(6), Told::Bytes(0, Some(6), LENGTH)),
    (Act::Fetch(7), Told::Bytes(LIMIT, Some(7), LENGTH)),
    (Act::Fetch(8), Told::Bytes(0, Some(8), LENGTH)),
];

/// Those that are left after four were released.
const REST_FETCHED: [Row; 4] = [
    (Act::Fetch(5), Told::Bytes(LIMIT, Some(5), LENGTH)),
    (Act::Fetch(6), Told::Bytes(0, Some(6), LENGTH)),
    (Act::Fetch(7), Told::Bytes(LIMIT, Some(7), LENGTH)),
    (Act::Fetch(8), Told::Bytes(0, Some(8), LENGTH)),
];

/// A late pick.
const PICK_LATE: Act = Act::Pick(LATE);

/// All but the last of the second eight expire at it, and that goes into flight.
const PICKED_LATE: Told = Told::Picked(9, 16, Some((9, 7)), NONE);

/// The relay gets 16 datagrams with their limits, 8 of which are in flight: its segment is full. It crashes between the
/// groups.
const FILL: [Stage; 4] = [
    Stage::Round(&FIRST_TAKEN),
    Stage::Crash,
    Stage::Round(&SECOND_TAKEN),
    Stage::Round(&FIRST_PICKED),
];

/// A full relay releases four, for which a segment is opened, and later picks when most have expired. The limits are in
/// records, and from the release on in the segment's head. None expires in flight.
const RELEASE_AND_PICK: [Stage; 7] = [
    Stage::Alone(&FIRST_FETCHED),
    Stage::Alone(&[(Act::Release(4), Told::Released(4))]),
    Stage::Crash,
    Stage::Alone(&REST_FETCHED),
    Stage::Alone(&[
        (Act::Show, Told::Shown((16, 8, 4, 0, 0, 4))),
        (PICK_LATE, PICKED_LATE),
        (Act::Show, Told::Shown((16, 0, 5, 0, 7, 4))),
    ]),
    Stage::Crash,
    Stage::Alone(&[
        (Act::Fetch(5), Told::Bytes(LIMIT, Some(5), LENGTH)),
        (Act::Fetch(6), Told::Bytes(0, Some(6), LENGTH)),
        (Act::Fetch(7), Told::Bytes(LIMIT, Some(7), LENGTH)),
        (Act::Fetch(8), Told::Bytes(0, Some(8), LENGTH)),
        (Act::Show, Told::Shown((16, 0, 5, 0, 7, 4))),
    ]),
];

/// Three with the same limit wait until it has passed. A pick at which all expire leaves none for another one.
const ALL_EXPIRE: [Stage; 5] = [
    Stage::Alone(&[
        (Act::Take(1, LIMIT, LENGTH), Told::Taken(1)),
        (Act::Take(2, LIMIT, LENGTH), Told::Taken(2)),
        (Act::Take(3, LIMIT, LENGTH), Told::Taken(3)),
    ]),
    Stage::Crash,
    Stage::Alone(&[(PICK_LATE, Told::Nothing(Some((1, 3))))]),
    Stage::Crash,
    Stage::Alone(&[
        (Act::Show, Told::Shown((3, 0, 0, 0, 3, 0))),
        (PICK_LATE, Told::Refused(Refusal::Empty)),
    ]),
];

/// The relay runs these.
fn go_through<R: Abort>(rt: &R, alloc: Global, relay: &mut Relay, stages: &[Stage]) {
    for stage in stages {
        match stage {
            Stage::Round(rows) => expect_round(rt, alloc, relay, *rows),
            Stage::Alone(rows) => expect_alone(rt, alloc, relay, *rows),
            Stage::Crash => open_again(rt, relay, Torn::AsSynced),
        }
    }
}

/// A relay is filled, releases four and picks late.
fn fill_and_release<R: Abort>(rt: &R, alloc: Global, relay: &mut Relay) {
    go_through(rt, alloc, relay, &FILL);
    go_through(rt, alloc, relay, &RELEASE_AND_PICK);
}

/// New relays run both.
fn expect_limits<R: Abort>(rt: &R, alloc: Global) {
    fill_and_release(rt, alloc, &mut new_relay(rt, alloc, &SMALL));
    go_through(rt, alloc, &mut new_relay(rt, alloc, &SMALL), &ALL_EXPIRE);
}

#[test]
fn limits_through_a_segment_that_is_opened_and_in_a_queue(rt: HostRuntime) {
    expect_limits(&rt, rt.alloc());
}
