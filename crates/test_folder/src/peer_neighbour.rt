//! A folder that plays the neighbour station of a peer: the packets that it gives, what it makes of the answers, a failure
//! and a crash at each call.
use crate::expect_listed;
use rly_folder::{After, Area, FaultFolder, Folder, FolderFile, MemFolder, Name};
use rly_hop::{MAX_MESSAGE, StationId};
use rly_link_folder::{Admission, PeerNeighbour};
use std::alloc::Global;
use std::process::Abort;

/// Data 0 of station 9 for station 7: it asks for the last number, by destination 12.
pub(crate) const QUESTION: &[u8] =
    b"\x52\x4c\x01\x01\x00\x09\x00\x07\x00\x00\x00\x00\x00\x00\x00\x00\x00\x02\x00\x0c";

/// Data 5 to 7, whose payloads are for destination 12.
const DATA_5: &[u8] =
    b"\x52\x4c\x01\x01\x00\x09\x00\x07\x00\x00\x00\x00\x00\x00\x00\x05\x00\x03\x00\x0cA";

const DATA_6: &[u8] =
    b"\x52\x4c\x01\x01\x00\x09\x00\x07\x00\x00\x00\x00\x00\x00\x00\x06\x00\x03\x00\x0cB";

const DATA_7: &[u8] =
    b"\x52\x4c\x01\x01\x00\x09\x00\x07\x00\x00\x00\x00\x00\x00\x00\x07\x00\x03\x00\x0cC";

pub(crate) const DATA: [&[u8]; 3] = [DATA_5, DATA_6, DATA_7];

/// Data 6 and 7 that are made of an empty file and of `BC`.
const EMPTY: &[u8] =
    b"\x52\x4c\x01\x01\x00\x09\x00\x07\x00\x00\x00\x00\x00\x00\x00\x06\x00\x02\x00\x0c";

const TWO: &[u8] =
    b"\x52\x4c\x01\x01\x00\x09\x00\x07\x00\x00\x00\x00\x00\x00\x00\x07\x00\x04\x00\x0cBC";

/// Data 5 with a limit of 60,000,000 microseconds, a minute, and with 1,099,511,627,000, the greatest limit of a plan.
const WITH_A_MINUTE: &[u8] =
    b"\x52\x4c\x01\x04\x00\x09\x00\x07\x00\x00\x00\x00\x00\x00\x00\x05\x00\x03\x93\x87\x00\x00\x03\x00\x0cA";

const WITH_THE_GREATEST: &[u8] =
    b"\x52\x4c\x01\x04\x00\x09\x00\x07\x00\x00\x00\x00\x00\x00\x00\x05\xff\xff\xff\xfc\xf8\x00\x03\x00\x0cA";

/// Custody 4 to 9 of station 7 for station 9.
const CUSTODY_4: &[u8] = b"\x52\x4c\x01\x02\x00\x07\x00\x09\x00\x00\x00\x00\x00\x00\x00\x04";

const CUSTODY_5: &[u8] = b"\x52\x4c\x01\x02\x00\x07\x00\x09\x00\x00\x00\x00\x00\x00\x00\x05";

const CUSTODY_6: &[u8] = b"\x52\x4c\x01\x02\x00\x07\x00\x09\x00\x00\x00\x00\x00\x00\x00\x06";

const CUSTODY_7: &[u8] = b"\x52\x4c\x01\x02\x00\x07\x00\x09\x00\x00\x00\x00\x00\x00\x00\x07";

const CUSTODY_8: &[u8] = b"\x52\x4c\x01\x02\x00\x07\x00\x09\x00\x00\x00\x00\x00\x00\x00\x08";

const CUSTODY_9: &[u8] = b"\x52\x4c\x01\x02\x00\x07\x00\x09\x00\x00\x00\x00\x00\x00\x00\x09";

pub(crate) const CUSTODY: [&[u8]; 6] = [
    CUSTODY_4, CUSTODY_5, CUSTODY_6, CUSTODY_7, CUSTODY_8, CUSTODY_9,
];

/// Data 5 is refused: the spool is full, or there is no route; and Data 7 is.
const FULL_5: &[u8] = b"\x52\x4c\x01\x03\x00\x07\x00\x09\x00\x00\x00\x00\x00\x00\x00\x05\x06";

const NO_ROUTE_5: &[u8] = b"\x52\x4c\x01\x03\x00\x07\x00\x09\x00\x00\x00\x00\x00\x00\x00\x05\x02";

const FULL_7: &[u8] = b"\x52\x4c\x01\x03\x00\x07\x00\x09\x00\x00\x00\x00\x00\x00\x00\x07\x06";

/// Data 0 is refused: the spool is full, or there is no route.
const FULL_0: &[u8] = b"\x52\x4c\x01\x03\x00\x07\x00\x09\x00\x00\x00\x00\x00\x00\x00\x00\x06";

const NO_ROUTE_0: &[u8] = b"\x52\x4c\x01\x03\x00\x07\x00\x09\x00\x00\x00\x00\x00\x00\x00\x00\x02";

/// Packets that change nothing: a byte, Custody 4 of another station, for another station, a Data, a Heard.
const STRAY: &[u8] = b"R";

const FROM_OTHER: &[u8] = b"\x52\x4c\x01\x02\x00\x08\x00\x09\x00\x00\x00\x00\x00\x00\x00\x04";

const TO_OTHER: &[u8] = b"\x52\x4c\x01\x02\x00\x07\x00\x08\x00\x00\x00\x00\x00\x00\x00\x04";

const A_DATA: &[u8] = b"\x52\x4c\x01\x01\x00\x07\x00\x09\x00\x00\x00\x00\x00\x00\x00\x04\x00\x00";

const A_HEARD: &[u8] =
    b"\x52\x4c\x01\x05\x00\x07\x00\x09\x00\x00\x00\x00\x00\x00\x00\x04\x00\x00\x00\x00\x00\x00\x00\x00";

/// An empty packet in a script: nothing came for a while.
const SILENCE: &[u8] = b"";

/// A packet that comes, and the packets that are given after it.
type Row = (&'static [u8], &'static [&'static [u8]]);

/// The neighbour 9 of station 7, in whose window two Data fit, with the destination and the limit of all files, if they
/// have them. Destination 12 has a route, and a payload has at most four bytes.
pub(crate) fn neighbour<R: Abort, F: Folder>(
    rt: &R,
    alloc: Global,
    all: Option<(u16, u64)>,
    folder: F,
) -> PeerNeighbour<F> {
    let routes = [12].to_vec(alloc).expect(rt, "memory");
    let (destination, limit) = match all {
        Some((destination, limit)) => (Some(destination), limit),
        None => (None, 0),
    };
    assert!(rt; limit < 1_099_511_627_776);
    let rules = Admission::new(routes, false, 4, destination);
    PeerNeighbour::new(
        alloc,
        StationId(9),
        StationId(7),
        rules,
        2,
        limit,
        12,
        folder,
    )
}

/// Other programs put these files into `new/`, from 1 on, durably.
fn filled<R: Abort>(rt: &R, alloc: Global, files: &[&[u8]]) -> MemFolder {
    let mut folder = MemFolder::new(alloc);
    let mut number = 1;
    for file in files {
        let file = file.to_vec(alloc).expect(rt, "memory");
        let area = Area::New;
        let file = FolderFile::new(file, 0);
        folder.put(Name { area, number }, file).expect(rt, "memory");
        number = number.saturating_add(1);
    }
    folder.sync().expect(rt, "no fault");
    folder
}

/// Checks that a neighbour gives this packet next; an empty one stands for none.
fn expect_next<R: Abort, F: Folder>(rt: &R, far: &mut PeerNeighbour<F>, packet: &[u8], row: u64) {
    let mut buffer = [0; MAX_MESSAGE];
    let count = far.next_packet(&mut buffer).unwrap_or(0);
    expect!(*rt; &buffer[..count] == packet, row);
}

/// Plays a script.
fn expect_script<R: Abort, F: Folder>(rt: &R, far: &mut PeerNeighbour<F>, script: &[Row]) {
    let mut number = 0;
    for row in script {
        match row.0 {
            SILENCE => far.again(),
            packet => far.hear(packet),
        }
        for packet in row.1 {
            expect_next(rt, far, packet, number);
        }
        expect_next(rt, far, &[], number);
        number = number.saturating_add(1);
    }
}

/// The files of a folder in these two areas have these numbers.
pub(crate) fn expect_left<R: Abort, F: Folder + Drop>(
    rt: &R,
    far: PeerNeighbour<F>,
    sent: &[u64],
    row: u64,
) {
    let mut folder = far.into_folder();
    expect_listed(rt, &mut folder, Area::New, &[], row);
    expect_listed(rt, &mut folder, Area::Sent, sent, row);
}

/// The files of `new/`, the destination and the limit of all files, the packets, and the numbers in `new/` and in `sent/`
/// after them.
struct Script {
    files: &'static [&'static [u8]],
    all: Option<(u16, u64)>,
    rows: &'static [Row],
    left: [&'static [u64]; 2],
}

const SCRIPTS: [Script; 7] = [
    // It asks until it is answered. Each file is given under the next number, two at most on their way, and again after a
    // silence; a Custody that goes back or too far changes nothing.
    Script {
        files: &[b"\x00\x0cA", b"\x00\x0cB", b"\x00\x0cC"],
        all: None,
        rows: &[
            (CUSTODY_4, &[QUESTION]),
            (SILENCE, &[QUESTION]),
            (STRAY, &[]),
            (FROM_OTHER, &[]),
            (TO_OTHER, &[]),
            (A_DATA, &[]),
            (A_HEARD, &[]),
            (FULL_5, &[]),
            (CUSTODY_4, &[DATA_5, DATA_6]),
            (CUSTODY_4, &[]),
            (CUSTODY_9, &[]),
            (CUSTODY_5, &[DATA_7]),
            (CUSTODY_4, &[]),
            (SILENCE, &[DATA_6, DATA_7]),
            (CUSTODY_7, &[]),
            (SILENCE, &[]),
        ],
        left: [&[], &[]],
    },
    // A refusal ends the giving: until a silence, or if it is for good until the number is in the station's custody.
    Script {
        files: &[b"\x00\x0cA", b"\x00\x0cB"],
        all: None,
        rows: &[
            (SILENCE, &[QUESTION]),
            (CUSTODY_4, &[DATA_5, DATA_6]),
            (NO_ROUTE_0, &[]),
            (FULL_7, &[]),
            (FULL_5, &[]),
            (SILENCE, &[DATA_5, DATA_6]),
            (NO_ROUTE_5, &[]),
            (SILENCE, &[]),
            (CUSTODY_5, &[]),
            (SILENCE, &[DATA_6]),
        ],
        left: [&[], &[6]],
    },
    // A refused question changes nothing else. It is asked again after a silence, unless the refusal is for good.
    Script {
        files: &[b"\x00\x0cA", b"\x00\x0cB"],
        all: None,
        rows: &[
            (SILENCE, &[QUESTION]),
            (FULL_0, &[]),
            (CUSTODY_4, &[]),
            (SILENCE, &[QUESTION]),
            (NO_ROUTE_5, &[]),
            (NO_ROUTE_0, &[]),
            (SILENCE, &[]),
            (CUSTODY_4, &[]),
        ],
        left: [&[1, 2], &[]],
    },
    // A file without a route goes aside, and the one after it is given with the next packet.
    Script {
        files: &[b"\x00\x0dX", b"\x00\x0cA"],
        all: None,
        rows: &[(SILENCE, &[QUESTION]), (CUSTODY_4, &[]), (STRAY, &[DATA_5])],
        left: [&[], &[5]],
    },
    // A destination of all files is put before each, also before an empty one; one that is too long with it goes aside.
    Script {
        files: &[b"A", b"", b"BC", b"BCD"],
        all: Some((12, 0)),
        rows: &[
            (SILENCE, &[QUESTION]),
            (CUSTODY_4, &[DATA_5, EMPTY]),
            (CUSTODY_6, &[TWO]),
            (SILENCE, &[TWO]),
            (CUSTODY_7, &[]),
        ],
        left: [&[], &[]],
    },
    // The limit of all files is in each Data, and the question has none.
    Script {
        files: &[b"A"],
        all: Some((12, 60_000_000)),
        rows: &[
            (SILENCE, &[QUESTION]),
            (CUSTODY_4, &[WITH_A_MINUTE]),
            (SILENCE, &[WITH_A_MINUTE]),
        ],
        left: [&[], &[5]],
    },
    Script {
        files: &[b"A"],
        all: Some((12, 1_099_511_627_000)),
        rows: &[(SILENCE, &[QUESTION]), (CUSTODY_4, &[WITH_THE_GREATEST])],
        left: [&[], &[5]],
    },
];

/// Plays a script on a folder with its files.
fn expect_given<R: Abort>(rt: &R, alloc: Global, script: &Script, row: u64) {
    let mut far = neighbour(rt, alloc, script.all, filled(rt, alloc, script.files));
    expect_script(rt, &mut far, script.rows);
    let mut folder = far.into_folder();
    expect_listed(rt, &mut folder, Area::New, script.left[0], row);
    expect_listed(rt, &mut folder, Area::Sent, script.left[1], row);
}

#[test]
fn files_are_given_in_order(rt: HostRuntime) {
    let mut row = 0;
    for script in &SCRIPTS {
        expect_given(&rt, rt.alloc(), script, row);
        row = row.saturating_add(1);
    }
}

/// The station takes the next packet, if its number and payload are those that come after `last`, and answers. Returns its
/// last number then. If there is no packet nothing comes for a while.
fn exchange<F: Folder>(far: &mut PeerNeighbour<F>, last: u64) -> u64 {
    let mut buffer = [0; MAX_MESSAGE];
    let Some(count) = far.next_packet(&mut buffer) else {
        far.again();
        return last;
    };
    let packet = &buffer[..count];
    let place = last.saturating_sub(4) as usize;
    let is_next = match DATA.get(place) {
        Some(data) => *data == packet,
        None => false,
    };
    let last = if is_next {
        last.saturating_add(1)
    } else {
        last
    };
    if let Some(custody) = CUSTODY.get(last.saturating_sub(4) as usize) {
        far.hear(custody);
    }
    last
}

/// Goes on until all is taken if no call fails any more. Returns the station's last number.
fn exchange_all<F: Folder>(far: &mut PeerNeighbour<F>, last: u64) -> u64 {
    let mut last = last;
    for _ in 0..20_u64 {
        last = exchange(far, last);
    }
    last
}

/// Two files that the station takes.
pub(crate) fn two_files<R: Abort>(rt: &R, alloc: Global) -> MemFolder {
    filled(rt, alloc, &[b"\x00\x0cA", b"\x00\x0cB"])
}

/// Each of the 20 calls fails once, and is made nevertheless or not.
#[test]
fn a_failure_at_each_call(rt: HostRuntime) {
    for at in 1..21_u64 {
        for made in &[false, true] {
            let folder = FaultFolder::new(two_files(&rt, rt.alloc()), at, *made, After::GoesOn);
            let mut far = neighbour(&rt, rt.alloc(), None, folder);
            expect!(rt; exchange_all(&mut far, 4) == 6, at);
            expect_left(&rt, far, &[], at);
        }
    }
}

/// Which pending changes stand.
const STANDS: [&[bool]; 4] = [&[], &[true], &[false, true], &[true, true]];

/// The folder stops at each of the 20 calls, that one made or not, and a crash leaves some of what was pending.
#[test]
fn a_crash_at_each_call(rt: HostRuntime) {
    for at in 1..22_u64 {
        for made in &[false, true] {
            for stands in &STANDS {
                let folder = FaultFolder::new(two_files(&rt, rt.alloc()), at, *made, After::Stops);
                let mut far = neighbour(&rt, rt.alloc(), None, folder);
                let last = exchange_all(&mut far, 4);
                let left = far.into_folder().into_inner().crash(stands);
                let mut far = neighbour(&rt, rt.alloc(), None, left.expect(&rt, "memory"));
                expect!(rt; exchange_all(&mut far, last) == 6, at);
                expect_left(&rt, far, &[], at);
            }
        }
    }
}
