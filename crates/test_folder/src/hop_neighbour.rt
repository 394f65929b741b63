//! A folder that plays the neighbour station of a hop: packets in, and the packets that it answers.
use rly_folder::{After, FaultFolder, Folder, MemFolder};
use rly_hop::{MAX_MESSAGE, StationId};
use rly_link_folder::{HopNeighbour, Outbox};
use std::process::Abort;

/// Data 0 to 3 of station 7 for station 9, whose payload is one byte, and Data 2 with a limit of 16 microseconds.
const DATA_0: &[u8] = b"\x52\x4c\x01\x01\x00\x07\x00\x09\x00\x00\x00\x00\x00\x00\x00\x00\x00\x01A";

const DATA_1: &[u8] = b"\x52\x4c\x01\x01\x00\x07\x00\x09\x00\x00\x00\x00\x00\x00\x00\x01\x00\x01A";

const DATA_2: &[u8] = b"\x52\x4c\x01\x01\x00\x07\x00\x09\x00\x00\x00\x00\x00\x00\x00\x02\x00\x01B";

const DATA_3: &[u8] = b"\x52\x4c\x01\x01\x00\x07\x00\x09\x00\x00\x00\x00\x00\x00\x00\x03\x00\x01C";

const LIMITED_2: &[u8] =
    b"\x52\x4c\x01\x04\x00\x07\x00\x09\x00\x00\x00\x00\x00\x00\x00\x02\x00\x00\x00\x00\x10\x00\x01B";

/// Custody 0 to 2 of station 9 for station 7.
const CUSTODY_0: &[u8] = b"\x52\x4c\x01\x02\x00\x09\x00\x07\x00\x00\x00\x00\x00\x00\x00\x00";

const CUSTODY_1: &[u8] = b"\x52\x4c\x01\x02\x00\x09\x00\x07\x00\x00\x00\x00\x00\x00\x00\x01";

const CUSTODY_2: &[u8] = b"\x52\x4c\x01\x02\x00\x09\x00\x07\x00\x00\x00\x00\x00\x00\x00\x02";

/// Data 3 is refused, since the folder is full.
const FULL: &[u8] = b"\x52\x4c\x01\x03\x00\x09\x00\x07\x00\x00\x00\x00\x00\x00\x00\x03\x06";

/// Packets that draw nothing: a byte, a Data of station 8, one for station 8, a Custody, a Heard.
const STRAYS: &[&[u8]] = &[
    b"R",
    b"\x52\x4c\x01\x01\x00\x08\x00\x09\x00\x00\x00\x00\x00\x00\x00\x01\x00\x01A",
    b"\x52\x4c\x01\x01\x00\x07\x00\x08\x00\x00\x00\x00\x00\x00\x00\x01\x00\x01A",
    b"\x52\x4c\x01\x02\x00\x07\x00\x09\x00\x00\x00\x00\x00\x00\x00\x01",
    b"\x52\x4c\x01\x05\x00\x07\x00\x09\x00\x00\x00\x00\x00\x00\x00\x01\x80\x00\x00\x00\x00\x00\x00\x00",
];

/// The neighbour 9 of station 7, whose folder takes two files.
fn neighbour<R: Abort, F: Folder + Drop>(rt: &R, folder: F) -> HopNeighbour<F> {
    match Outbox::open(folder, 2) {
        Ok(outbox) => HopNeighbour::new(StationId(9), StationId(7), outbox),
        Err(_) => panic!(rt; "the folder opens"),
    }
}

/// Checks that a neighbour sends this packet next; an empty one stands for none.
fn expect_next<R: Abort, F: Folder>(rt: &R, far: &mut HopNeighbour<F>, packet: &[u8], row: u64) {
    let mut buffer = [0; MAX_MESSAGE];
    let count = far.next_packet(&mut buffer).unwrap_or(0);
    expect!(*rt; &buffer[..count] == packet, row);
}

/// Packets that come, and those that are sent after them.
type Row = (&'static [&'static [u8]], &'static [&'static [u8]]);

/// Each Data draws a Custody of what is there, and what is no Data for it draws nothing. What a turn of the hop sent is
/// answered by one Custody, after a refusal.
const ROWS: [Row; 9] = [
    (&[], &[]),
    (STRAYS, &[]),
    (&[DATA_0], &[CUSTODY_0]),
    (&[DATA_2], &[CUSTODY_0]),
    (&[DATA_1], &[CUSTODY_1]),
    (&[DATA_1], &[CUSTODY_1]),
    (&[LIMITED_2], &[CUSTODY_2]),
    (&[DATA_3], &[FULL]),
    (&[DATA_1, DATA_2, DATA_3, DATA_0], &[FULL, CUSTODY_2]),
];

/// Checks what a neighbour sends after packets.
fn expect_answered<R: Abort, F: Folder>(rt: &R, far: &mut HopNeighbour<F>, row: &Row, at: u64) {
    for packet in row.0 {
        far.hear(packet);
    }
    for packet in row.1 {
        expect_next(rt, far, packet, at);
    }
    expect_next(rt, far, &[], at);
}

#[test]
fn each_data_is_answered(rt: HostRuntime) {
    let mut far = neighbour(&rt, MemFolder::new(rt.alloc()));
    let mut at = 0;
    for row in &ROWS {
        expect_answered(&rt, &mut far, row, at);
        at = at.saturating_add(1);
    }
}

/// A Data whose file or number can't be made durable draws nothing, and the same one again a Custody: the 4th to the 11th call are
/// those for it.
#[test]
fn a_failed_call_draws_nothing(rt: HostRuntime) {
    for at in 4..12_u64 {
        let folder = FaultFolder::new(MemFolder::new(rt.alloc()), at, true, After::GoesOn);
        let mut far = neighbour(&rt, folder);
        expect_answered(&rt, &mut far, &(&[DATA_1], &[]), at);
        expect_answered(&rt, &mut far, &(&[DATA_1], &[CUSTODY_1]), at);
    }
}
