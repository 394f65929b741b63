//! The device calls of a format, a round and an opening, in order, as in docs/ARCHITECTURE.md.
use crate::device::{expect_format, opened, zeroed};
use crate::expect::expect;
use crate::script::{Act, Step, make};
use rly_core::Refusal;
use rly_disk::{After, DiskCall, FaultDisk, MemDisk, TracedCall, TracedDisk};
use std::alloc::Global;
use std::process::Abort;

/// The offset of the second segment's gate.
const SECOND_GATE: u64 = 82_972;

/// A call of a device, with its offset and its length.
#[derive(Clone, Copy)]
enum Made {
    Read(u64, u64),
    Write(u64, u64),
    Sync,
    FailedSync,
}

impl Made {
    fn told(self) -> TracedCall {
        let (call, failed) = match self {
            Made::Read(place, count) => (DiskCall::Read { place, count }, false),
            Made::Write(place, count) => (DiskCall::Write { place, count }, false),
            Made::Sync => (DiskCall::Sync, false),
            Made::FailedSync => (DiskCall::Sync, true),
        };
        TracedCall { call, failed }
    }
}

/// Acts on a device of zeros, and its calls.
#[derive(Clone, Copy)]
struct Row<'a> {
    shows: &'static str,
    /// The call that fails, 0 for none.
    fails: u64,
    /// It is formatted as device E, and opened for each of these.
    sessions: &'a [&'a [Act<'a>]],
    /// The number of first calls that other rows show.
    skipped: usize,
    /// All calls after these.
    calls: &'a [&'a [Made]],
}

/// A format: the header's gate, which is closed; the gates of both segments; the first head; the header; and the two
/// gates.
const FORMAT: [Made; 14] = [
    Made::Read(0, 1),
    Made::Sync,
    Made::Write(64, 1),
    Made::Sync,
    Made::Write(SECOND_GATE, 1),
    Made::Sync,
    Made::Write(65, 93),
    Made::Sync,
    Made::Write(1, 52),
    Made::Sync,
    Made::Write(64, 1),
    Made::Sync,
    Made::Write(0, 1),
    Made::Sync,
];

/// An opening: the header, both generations, the head and its body.
const OPENING: [Made; 6] = [
    Made::Sync,
    Made::Read(0, 53),
    Made::Read(64, 9),
    Made::Read(SECOND_GATE, 9),
    Made::Read(65, 12),
    Made::Read(77, 80),
];

/// The closed gate after the head of a new device.
const NEW: [Made; 1] = [Made::Read(157, 1)];

/// The gate of a group, its length and its body, and the closed gate after it.
const GROUP: [Made; 4] = [
    Made::Read(157, 1),
    Made::Read(158, 4),
    Made::Read(162, 26),
    Made::Read(188, 1),
];

/// A round of a Take of one byte: the frame after the gate, and then the gate.
const TAKE: [Made; 4] = [
    Made::Write(158, 31),
    Made::Sync,
    Made::Write(157, 1),
    Made::Sync,
];

/// The round writes, and then its sync fails.
const FAILED: [Made; 2] = [Made::Write(158, 31), Made::FailedSync];

/// The device calls of two rounds and a fetch.
const FETCHED: [Made; 10] = [
    Made::Write(158, 89),
    Made::Sync,
    Made::Write(157, 1),
    Made::Sync,
    Made::Read(187, 3),
    // The second group, and its payload after 7 and 23 bytes.
    Made::Write(247, 46),
    Made::Sync,
    Made::Write(246, 1),
    Made::Sync,
    Made::Read(276, 5),
];

/// A round that opens a segment. It reads the victim's three payloads, those in flight and then the waiting one.
const MOVED: [Made; 12] = [
    Made::Read(1_417, 1_200),
    Made::Read(2_647, 1_200),
    Made::Read(3_931, 1_200),
    // The second segment's gate is closed. Its head of 3,756 bytes except the gate, a closed gate after it, and then
    // the gate.
    Made::Sync,
    Made::Write(SECOND_GATE + 1, 3_756),
    Made::Sync,
    Made::Write(SECOND_GATE, 1),
    Made::Sync,
    // The group.
    Made::Write(86_729, 30),
    Made::Sync,
    Made::Write(86_728, 1),
    Made::Sync,
];

const FIRST: Step = Step::Take(1, 0, 0, 1);

/// Takes, picks, fetches and releases in one round: of a datagram of three bytes, and of one without any.
const FETCHING: [Step; 9] = [
    Step::Take(1, 0, 0, 3),
    Step::Take(2, 0, 0, 0),
    Step::Pick(0),
    Step::Pick(0),
    Step::Fetch(1),
    Step::Release(1),
    Step::Fetch(1),
    Step::Fetch(2),
    Step::Fetch(3),
];

fn rows() -> [Row<'static>; 5] {
    [
        Row {
            shows: "a format, a round and an opening; refused fetches of far numbers make no call",
            fails: 0,
            sessions: &[
                &[
                    Act::Refuses(0, Refusal::NotInFlight),
                    Act::Refuses(u64::MAX, Refusal::NeverSent),
                    Act::Round(&[FIRST], &[1]),
                ],
                &[],
            ],
            skipped: 0,
            calls: &[&FORMAT, &OPENING, &NEW, &TAKE, &OPENING, &GROUP],
        },
        Row {
            shows: "a datagram that comes twice in one round is taken once",
            fails: 0,
            sessions: &[&[], &[Act::Round(&[FIRST, FIRST], &[1, 1])]],
            skipped: 14,
            calls: &[&OPENING, &NEW, &OPENING, &NEW, &TAKE],
        },
        Row {
            shows: "a round whose first sync fails",
            fails: 14 + 7 + 2,
            sessions: &[&[Act::Round(&[FIRST], &[0])]],
            skipped: 14,
            calls: &[&OPENING, &NEW, &FAILED],
        },
        // It is one read from its group, after the group is durable; also if it is released in the same round.
        Row {
            shows: "a Fetch of bytes is one read of them; a refused one and one of no bytes are none",
            fails: 0,
            sessions: &[&[
                Act::Round(&FETCHING, &[1, 2, 3, 4, 4, 5, 5, 5, 5]),
                Act::Round(&[Step::Take(3, 0, 0, 5), Step::Pick(0)], &[6, 7]),
                Act::Fetches(3, &[3; 5]),
                Act::Fetches(2, &[]),
                Act::Refuses(1, Refusal::NotInFlight),
            ]],
            skipped: 14 + 7,
            calls: &[&FETCHED],
        },
        // The offset 5,067 of the gate and 78,280 exceed 82,908 before the last of these rounds. The rounds before it
        // make four calls each.
        Row {
            shows: "a segment is opened before a round",
            fails: 0,
            sessions: &[&[
                Act::Round(&[Step::Take(1, 0, 0, 1_200)], &[1]),
                Act::Round(&[Step::Take(2, 0, 0, 1_200)], &[2]),
                Act::Round(&[Step::Take(3, 0, 0, 1_200)], &[3]),
                Act::Round(&[Step::Pick(0)], &[4]),
                Act::Round(&[Step::Pick(0)], &[5]),
                Act::Round(&[Step::Release(1)], &[6]),
                Act::Round(&[Step::Take(4, 0, 0, 1_200)], &[7]),
                Act::Round(&[Step::Take(5, 7, 0, 0)], &[8]),
            ]],
            skipped: 14 + 7 + 28,
            calls: &[&MOVED],
        },
    ]
}

/// A disk that records its calls.
type Told = TracedDisk<FaultDisk<MemDisk>>;

/// Makes a new device E, one of whose calls may fail.
fn formatted(rt: &impl Abort, alloc: Global, fails: u64) -> Told {
    let disk = FaultDisk::new(zeroed(rt, alloc), fails, 0, After::GoesOn);
    let mut told = TracedDisk::new(disk, Vec::with_capacity(alloc, 100).expect(rt, "memory"));
    expect_format(rt, alloc, &mut told);
    told
}

/// Returns a device that was opened for these acts, one of which breaks the journal if it fails.
fn after(rt: &impl Abort, alloc: Global, disk: Told, acts: &[Act], fails: bool) -> Told {
    let mut journal = opened(rt, alloc, disk);
    for act in acts {
        make(rt, alloc, &mut journal, *act);
    }
    expect!(rt; journal.is_broken() == fails);
    journal.into_disk()
}

/// The calls are exactly those of a row.
fn expect_calls(rt: &impl Abort, told: &[TracedCall], row: &Row) {
    let mut left = told.iter().skip(row.skipped);
    for part in row.calls {
        for made in *part {
            expect(rt, left.next().copied() == Some(made.told()), row.shows);
        }
    }
    expect(rt, left.next().is_none(), row.shows);
}

fn expect_row(rt: &impl Abort, alloc: Global, row: &Row) {
    let mut disk = formatted(rt, alloc, row.fails);
    for acts in row.sessions {
        disk = after(rt, alloc, disk, acts, row.fails > 0);
    }
    expect_calls(rt, disk.trace(), row);
}

fn expect_rows(rt: &impl Abort, alloc: Global) {
    for row in &rows() {
        expect_row(rt, alloc, row);
    }
}

#[test]
fn what_a_device_is_asked(rt: HostRuntime) {
    expect_rows(&rt, rt.alloc());
}
