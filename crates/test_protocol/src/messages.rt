//! The worked messages of docs/PROTOCOL.md, and bytes that are no message.
use rly_core::Refusal;
use rly_hop::{Message, StationId, read_message, write_message};
use std::process::Abort;

/// Data from station 3 to 7, number 1, payload `000c41`.
const DATA: [u8; 21] = [
    0x52, 0x4c, 0x01, 0x01, 0x00, 0x03, 0x00, 0x07, 0, 0, 0, 0, 0, 0, 0, 1, 0x00, 0x03, 0x00, 0x0c,
    0x41,
];

/// Data from station 3 to 7, number 1, limit 5,000, payload `000c41`.
const LIMITED: [u8; 26] = [
    0x52, 0x4c, 0x01, 0x04, 0x00, 0x03, 0x00, 0x07, 0, 0, 0, 0, 0, 0, 0, 1, 0, 0, 0, 0x13, 0x88,
    0x00, 0x03, 0x00, 0x0c, 0x41,
];

/// The same with the maximum limit.
const MOST_LIMITED: [u8; 26] = [
    0x52, 0x4c, 0x01, 0x04, 0x00, 0x03, 0x00, 0x07, 0, 0, 0, 0, 0, 0, 0, 1, 0xff, 0xff, 0xff, 0xff,
    0xff, 0x00, 0x03, 0x00, 0x0c, 0x41,
];

/// The custody of each of them.
const CUSTODY: [u8; 16] = [
    0x52, 0x4c, 0x01, 0x02, 0x00, 0x07, 0x00, 0x03, 0, 0, 0, 0, 0, 0, 0, 1,
];

/// Refused as Full, in place of its custody.
const FULL: [u8; 17] = [
    0x52, 0x4c, 0x01, 0x03, 0x00, 0x07, 0x00, 0x03, 0, 0, 0, 0, 0, 0, 0, 1, 0x06,
];

/// Number 1 is kept, and 3 and 4 were heard after it.
const HEARD: [u8; 24] = [
    0x52, 0x4c, 0x01, 0x05, 0x00, 0x07, 0x00, 0x03, 0, 0, 0, 0, 0, 0, 0, 1, 0x60, 0, 0, 0, 0, 0, 0,
    0,
];

/// Each byte of its number and of its bits is another one.
const HEARD_OF_MANY: [u8; 24] = [
    0x52, 0x4c, 0x01, 0x05, 0x01, 0x02, 0x03, 0x04, 0xf1, 0xf2, 0xf3, 0xf4, 0xf5, 0xf6, 0xf7, 0xf8,
    0x91, 0x82, 0x73, 0x64, 0x55, 0x46, 0x37, 0x28,
];

const DATA_MESSAGE: Message<&[u8]> = Message::Data {
    from: StationId(3),
    to: StationId(7),
    number: 1,
    limit: 0,
    payload: &[0x00, 0x0c, 0x41],
};

const LIMITED_MESSAGE: Message<&[u8]> = Message::Data {
    from: StationId(3),
    to: StationId(7),
    number: 1,
    limit: 5_000,
    payload: &[0x00, 0x0c, 0x41],
};

const MOST_LIMITED_MESSAGE: Message<&[u8]> = Message::Data {
    from: StationId(3),
    to: StationId(7),
    number: 1,
    limit: 1_099_511_627_775,
    payload: &[0x00, 0x0c, 0x41],
};

const CUSTODY_MESSAGE: Message<&[u8]> = Message::Custody {
    from: StationId(7),
    to: StationId(3),
    last: 1,
};

const FULL_MESSAGE: Message<&[u8]> = Message::Refused {
    from: StationId(7),
    to: StationId(3),
    number: 1,
    refusal: 6,
};

const HEARD_MESSAGE: Message<&[u8]> = Message::Heard {
    from: StationId(7),
    to: StationId(3),
    last: 1,
    bits: 0x6000_0000_0000_0000,
};

const HEARD_OF_MANY_MESSAGE: Message<&[u8]> = Message::Heard {
    from: StationId(0x0102),
    to: StationId(0x0304),
    last: 0xf1f2_f3f4_f5f6_f7f8,
    bits: 0x9182_7364_5546_3728,
};

/// The worked messages.
const WORKED: [(&[u8], Message<&[u8]>); 7] = [
    (&DATA, DATA_MESSAGE),
    (&LIMITED, LIMITED_MESSAGE),
    (&MOST_LIMITED, MOST_LIMITED_MESSAGE),
    (&CUSTODY, CUSTODY_MESSAGE),
    (&FULL, FULL_MESSAGE),
    (&HEARD, HEARD_MESSAGE),
    (&HEARD_OF_MANY, HEARD_OF_MANY_MESSAGE),
];

/// These bytes are decoded as this message, which is encoded as these bytes.
fn expect_spelled<R: Abort>(rt: &R, bytes: &[u8], message: Message<&[u8]>) {
    expect!(*rt; read_message(bytes) == Ok(message));
    let mut out = [0xee; 8_300];
    expect!(*rt; write_message(message, &mut out) == Ok(bytes.len()));
    expect!(*rt; out.iter().take(bytes.len()).eq(bytes.iter()));
    expect!(*rt; out.get(bytes.len()) == Some(&0xee));
}

#[test]
fn the_worked_messages_are_read_and_written(rt: HostRuntime) {
    for (bytes, message) in &WORKED {
        expect_spelled(&rt, *bytes, *message);
    }
}

fn fault(bytes: &[u8]) -> Option<Refusal> {
    read_message(bytes).err()
}

fn message_in(bytes: &[u8]) -> Option<Message<&[u8]>> {
    read_message(bytes).ok()
}

/// Bytes, the length of the part that is read, and its refusal.
type Refused = (&'static [u8], usize, Refusal);

/// Checks the refusal of each row's prefix.
fn expect_refused<R: Abort>(rt: &R, rows: &[Refused]) {
    for (index, (bytes, length, refusal)) in rows.iter().enumerate() {
        expect!(*rt; bytes.get(..*length).and_then(fault) == Some(*refusal), index as u64);
    }
}

/// Faults of the header.
const HEADERS: [Refused; 14] = [
    (&[], 0, Refusal::Short),
    (
        &[0x52, 0x4c, 0x01, 0x01, 0x00, 0x03, 0x00],
        7,
        Refusal::Short,
    ),
    (&[0x52, 0x4d, 0x02, 0x07, 0, 0, 0, 0], 8, Refusal::Magic),
    (&[0x4c, 0x52, 0x01, 0x01, 0, 3, 0, 7], 8, Refusal::Magic),
    (&[0x52, 0x4c, 0x02, 0x07, 0, 0, 0, 0], 8, Refusal::Version),
    (&[0x52, 0x4c, 0x01, 0x07, 0, 0, 0, 0], 8, Refusal::Kind),
    (&[0x52, 0x4c, 0x01, 0x00, 0, 3, 0, 7], 8, Refusal::Kind),
    (&[0x52, 0x4c, 0x01, 0x06, 0, 3, 0, 7], 8, Refusal::Kind),
    (&[0x52, 0x4c, 0x01, 0xff, 0, 3, 0, 7], 8, Refusal::Kind),
    (&[0x52, 0x4c, 0x01, 0x04, 0, 0, 0, 7], 8, Refusal::Station),
    (&[0x52, 0x4c, 0x01, 0x02, 0, 0, 0, 7], 8, Refusal::Station),
    (&[0x52, 0x4c, 0x01, 0x02, 0, 3, 0, 0], 8, Refusal::Station),
    (&[0x52, 0x4c, 0x01, 0x05, 0, 0, 0, 7], 8, Refusal::Station),
    (&[0x52, 0x4c, 0x01, 0x05, 0, 3, 0, 0], 8, Refusal::Station),
];

/// A custody, a refusal, a Heard and a Data with one byte too many.
const CUSTODY_AND_MORE: [u8; 17] = [
    0x52, 0x4c, 0x01, 0x02, 0x00, 0x07, 0x00, 0x03, 0, 0, 0, 0, 0, 0, 0, 1, 0,
];

const FULL_AND_MORE: [u8; 18] = [
    0x52, 0x4c, 0x01, 0x03, 0x00, 0x07, 0x00, 0x03, 0, 0, 0, 0, 0, 0, 0, 1, 6, 0,
];

const HEARD_AND_MORE: [u8; 25] = [
    0x52, 0x4c, 0x01, 0x05, 0x00, 0x07, 0x00, 0x03, 0, 0, 0, 0, 0, 0, 0, 1, 0x60, 0, 0, 0, 0, 0, 0,
    0, 0,
];

const DATA_AND_MORE: [u8; 22] = [
    0x52, 0x4c, 0x01, 0x01, 0x00, 0x03, 0x00, 0x07, 0, 0, 0, 0, 0, 0, 0, 1, 0x00, 0x03, 0x00, 0x0c,
    0x41, 0,
];

const LIMITED_AND_MORE: [u8; 27] = [
    0x52, 0x4c, 0x01, 0x04, 0x00, 0x03, 0x00, 0x07, 0, 0, 0, 0, 0, 0, 0, 1, 0, 0, 0, 0x13, 0x88,
    0x00, 0x03, 0x00, 0x0c, 0x41, 0,
];

/// Data with stated payload lengths of 1,201, 8,192 and 8,193 bytes.
const DATA_OF_1201: [u8; 21] = [
    0x52, 0x4c, 0x01, 0x01, 0x00, 0x03, 0x00, 0x07, 0, 0, 0, 0, 0, 0, 0, 1, 0x04, 0xb1, 0x00, 0x0c,
    0x41,
];

const DATA_OF_8192: [u8; 21] = [
    0x52, 0x4c, 0x01, 0x01, 0x00, 0x03, 0x00, 0x07, 0, 0, 0, 0, 0, 0, 0, 1, 0x20, 0x00, 0x00, 0x0c,
    0x41,
];

const DATA_OF_8193: [u8; 21] = [
    0x52, 0x4c, 0x01, 0x01, 0x00, 0x03, 0x00, 0x07, 0, 0, 0, 0, 0, 0, 0, 1, 0x20, 0x01, 0x00, 0x0c,
    0x41,
];

/// The same of a Data with a limit.
const LIMITED_OF_8192: [u8; 26] = [
    0x52, 0x4c, 0x01, 0x04, 0x00, 0x03, 0x00, 0x07, 0, 0, 0, 0, 0, 0, 0, 1, 0, 0, 0, 0x13, 0x88,
    0x20, 0x00, 0x00, 0x0c, 0x41,
];

const LIMITED_OF_8193: [u8; 26] = [
    0x52, 0x4c, 0x01, 0x04, 0x00, 0x03, 0x00, 0x07, 0, 0, 0, 0, 0, 0, 0, 1, 0, 0, 0, 0x13, 0x88,
    0x20, 0x01, 0x00, 0x0c, 0x41,
];

/// Data with a limit of 0: whole, and of 8,193 bytes.
const LIMIT_OF_NONE: [u8; 26] = [
    0x52, 0x4c, 0x01, 0x04, 0x00, 0x03, 0x00, 0x07, 0, 0, 0, 0, 0, 0, 0, 1, 0, 0, 0, 0, 0, 0x00,
    0x03, 0x00, 0x0c, 0x41,
];

const LIMIT_OF_NONE_OF_8193: [u8; 26] = [
    0x52, 0x4c, 0x01, 0x04, 0x00, 0x03, 0x00, 0x07, 0, 0, 0, 0, 0, 0, 0, 1, 0, 0, 0, 0, 0, 0x20,
    0x01, 0x00, 0x0c, 0x41,
];

/// Faults of the length. A limit of 0 is checked once the part before the payload is whole, and before the
/// payload's length.
const LENGTHS: [Refused; 22] = [
    (&CUSTODY, 15, Refusal::Short),
    (&CUSTODY_AND_MORE, 17, Refusal::Long),
    (&FULL, 16, Refusal::Short),
    (&FULL_AND_MORE, 18, Refusal::Long),
    (&HEARD, 8, Refusal::Short),
    (&HEARD, 23, Refusal::Short),
    (&HEARD_AND_MORE, 25, Refusal::Long),
    (&DATA_AND_MORE, 22, Refusal::Long),
    (&DATA_OF_1201, 21, Refusal::Short),
    (&DATA_OF_8192, 21, Refusal::Short),
    (&DATA_OF_8193, 21, Refusal::Long),
    (&DATA_OF_8193, 18, Refusal::Long),
    (&DATA_OF_8193, 17, Refusal::Short),
    (&LIMITED_AND_MORE, 27, Refusal::Long),
    (&LIMITED_OF_8192, 26, Refusal::Short),
    (&LIMITED_OF_8192, 23, Refusal::Short),
    (&LIMITED_OF_8193, 26, Refusal::Long),
    (&LIMITED_OF_8193, 22, Refusal::Short),
    (&LIMIT_OF_NONE, 26, Refusal::Kind),
    (&LIMIT_OF_NONE, 23, Refusal::Kind),
    (&LIMIT_OF_NONE, 22, Refusal::Short),
    (&LIMIT_OF_NONE_OF_8193, 26, Refusal::Kind),
];

#[test]
fn each_fault_is_told(rt: HostRuntime) {
    expect_refused(&rt, &HEADERS);
    expect_refused(&rt, &LENGTHS);
}

/// A Data of the longest payload with this limit has this length. It is written and read; without its last byte it
/// is no message.
fn expect_longest(rt: &impl Abort, limit: u64, length: usize) {
    let payload = [0x5a; 8_192];
    let message = Message::Data {
        from: StationId(1),
        to: StationId(65_535),
        number: 0xffff_ffff_ffff_ffff,
        limit,
        payload: payload.as_slice(),
    };
    let mut out = [0; 8_215];
    expect!(*rt; write_message(message, &mut out) == Ok(length));
    expect!(*rt; out.get(..length).and_then(message_in) == Some(message));
    expect!(*rt; out.get(..length.saturating_sub(1)).and_then(fault) == Some(Refusal::Short));
}

#[test]
fn the_longest_messages_are_written_and_read(rt: HostRuntime) {
    expect_longest(&rt, 0, 8_210);
    expect_longest(&rt, 5_000, 8_215);
}

/// A Data that isn't written, for this cause.
fn expect_unwritten(rt: &impl Abort, from: u16, limit: u64, length: usize, refusal: Refusal) {
    let payload = [0; 8_193];
    let message = Message::Data {
        from: StationId(from),
        to: StationId(7),
        number: 1,
        limit,
        payload: payload.get(..length).unwrap_or(&[]),
    };
    let mut out = [0xee; 8_300];
    expect!(*rt; write_message(message, &mut out) == Err(refusal));
    expect!(*rt; out[0] == 0xee);
}

/// A station, a limit and a payload's length without an encoding, and the refusal. A message without a station is
/// refused first, then a limit that doesn't fit its five bytes, or a payload above 8,192 bytes.
const UNWRITTEN: [(u16, u64, usize, Refusal); 5] = [
    (3, 0, 8_193, Refusal::Long),
    (3, 5_000, 8_193, Refusal::Long),
    (3, 1_099_511_627_776, 3, Refusal::Long),
    (0, 0, 8_193, Refusal::Station),
    (0, 1_099_511_627_776, 3, Refusal::Station),
];

#[test]
fn what_has_no_spelling_is_not_written(rt: HostRuntime) {
    for (from, limit, length, refusal) in &UNWRITTEN {
        expect_unwritten(&rt, *from, *limit, *length, *refusal);
    }
}
