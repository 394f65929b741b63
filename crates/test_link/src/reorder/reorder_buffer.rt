//! The stored Data, and the next one in order.
use crate::expect::expect_row;
use crate::reorder::packets::data;
use rly_link_reorder::ReorderBuffer;
use std::alloc::Global;
use std::process::Abort;

/// Events: Data received, custody sent, and deliveries.
#[derive(Clone, Copy)]
enum Act {
    /// Data of all numbers from one up to another are received, in order.
    Hears(u8, u8),
    /// Data are received under another number than theirs.
    HearsAs(u64, u8),
    /// A packet of 22 bytes is received under this number.
    HearsLonger(u8),
    /// Custody covers all numbers up to this one.
    Covers(u64),
    /// The Data of all numbers from one up to another are delivered, in order, and no more is due then.
    Gives(u8, u8),
    /// Nothing is due.
    GivesNothing,
    /// Nothing is delivered into a buffer of 20 bytes.
    FitsNot,
    /// A refusal of this number is sent.
    Refuses(u64),
    /// The Heard that is due has these bits, and is sent.
    Tells(u64),
    /// No Heard is due.
    TellsNothing,
}

/// The Data of this number are delivered.
fn gives<R: Abort>(rt: &R, early: &mut ReorderBuffer, number: u8) {
    let mut buffer = [0; 21];
    let found = early.give(&mut buffer);
    expect_row(rt, found == Some(21), "given", u64::from(number));
    expect_row(rt, buffer == data(number), "itself", u64::from(number));
}

/// Those of all these numbers are.
fn gives_all<R: Abort>(rt: &R, early: &mut ReorderBuffer, first: u8, last: u8) {
    for number in first..=last {
        gives(rt, early, number);
    }
}

/// These are received in order.
fn hear(early: &mut ReorderBuffer, first: u8, last: u8) {
    for number in first..=last {
        early.hear(u64::from(number), &data(number));
    }
}

/// Executes an event, and returns whether no more is due, if the event says so.
fn is_done<R: Abort>(rt: &R, early: &mut ReorderBuffer, act: Act) -> bool {
    match act {
        Act::Hears(first, last) => hear(early, first, last),
        Act::HearsAs(number, other) => early.hear(number, &data(other)),
        Act::HearsLonger(number) => early.hear(u64::from(number), &[number; 22]),
        Act::Covers(last) => early.cover(last),
        Act::Gives(first, last) => {
            gives_all(rt, early, first, last);
            return early.give(&mut [0; 21]).is_none();
        }
        Act::GivesNothing => return early.give(&mut [0; 21]).is_none(),
        Act::Refuses(number) => early.refuse(number),
        Act::Tells(bits) => {
            let due = early.heard_due();
            early.tell();
            return due == Some(bits);
        }
        Act::TellsNothing => return early.heard_due().is_none(),
        Act::FitsNot => return early.give(&mut [0; 20]).is_none(),
    }
    true
}

/// Executes the events in order.
fn run<R: Abort>(rt: &R, early: &mut ReorderBuffer, shows: &str, acts: &[Act]) {
    let mut row = 0u64;
    for act in acts {
        row = row.saturating_add(1);
        expect_row(rt, is_done(rt, early, *act), shows, row);
    }
}

/// What a script shows, the maximum number of bytes of a packet, and its events.
type Script = (&'static str, usize, &'static [Act]);

fn run_new<R: Abort>(rt: &R, alloc: Global, (shows, longest, acts): Script) {
    let mut early = ReorderBuffer::new(alloc, longest).expect(rt, "memory");
    run(rt, &mut early, shows, acts);
}

/// 1, 3 and 4 were received. Once 2 is, 3 and 4 are delivered again, once.
const MISSING: &[Act] = &[
    Act::Hears(1, 1),
    Act::Hears(3, 4),
    Act::GivesNothing,
    Act::Covers(1),
    Act::GivesNothing,
    Act::Hears(2, 2),
    Act::Gives(3, 4),
    Act::Covers(4),
    Act::GivesNothing,
];

/// 1 to 5 were received, and the spool had room for two. Custody of 2 delivers 3 to 5 again, and the same custody
/// again delivers nothing. Later the neighbour sends 3 again and it is taken: then 4 and 5 are delivered again.
const REST: &[Act] = &[
    Act::Hears(1, 5),
    Act::GivesNothing,
    Act::Covers(2),
    Act::Gives(3, 5),
    Act::Covers(2),
    Act::Covers(1),
    Act::GivesNothing,
    Act::Hears(3, 3),
    Act::GivesNothing,
    Act::Covers(3),
    Act::Gives(4, 5),
];

/// 2 and 4 are missing, 3 and 5 were received twice. Each is delivered once, in order.
const TWO_GAPS: &[Act] = &[
    Act::Hears(1, 1),
    Act::Hears(3, 3),
    Act::Hears(5, 5),
    Act::Hears(3, 3),
    Act::Hears(5, 5),
    Act::Covers(1),
    Act::Hears(2, 2),
    Act::Gives(3, 3),
    Act::Covers(3),
    Act::Hears(4, 4),
    Act::Gives(5, 5),
];

/// Custody is of 10. 74 is 64 above it and is stored; 75 isn't, though it is received before 74.
const FAR_AHEAD: &[Act] = &[
    Act::Covers(10),
    Act::Hears(75, 75),
    Act::Hears(74, 74),
    Act::Hears(200, 200),
    Act::Hears(11, 73),
    Act::Gives(74, 74),
];

/// Custody of 10 is the first of this run. 11 is missing, and 12 to 74 were received: all 63 are delivered again,
/// in order.
const WINDOW: &[Act] = &[
    Act::Covers(10),
    Act::Hears(12, 74),
    Act::GivesNothing,
    Act::Hears(11, 11),
    Act::Gives(12, 74),
];

/// A number that custody covers isn't delivered, even if it was stored. So its slot is free for the number that is
/// 64 above it.
const COVERED: &[Act] = &[
    Act::Hears(3, 4),
    Act::Covers(4),
    Act::GivesNothing,
    Act::Hears(68, 68),
    Act::Hears(5, 67),
    Act::Gives(68, 68),
];

/// The last number of 64 bits is never stored, so that deliveries end.
const LAST: &[Act] = &[
    Act::Covers(u64::MAX - 3),
    Act::HearsAs(u64::MAX - 1, 1),
    Act::HearsAs(u64::MAX, 2),
    Act::HearsAs(u64::MAX - 2, 3),
    Act::Gives(1, 1),
];

/// A packet above the maximum length isn't stored: 3 has to be received again, and then 4 is delivered.
const LONGER: &[Act] = &[
    Act::Hears(2, 2),
    Act::Hears(4, 4),
    Act::HearsLonger(3),
    Act::Hears(1, 1),
    Act::Gives(2, 2),
    Act::HearsLonger(3),
    Act::Gives(4, 4),
];

/// Without slots nothing is stored.
const NO_ROOM: &[Act] = &[
    Act::Hears(1, 1),
    Act::Hears(3, 3),
    Act::Hears(2, 2),
    Act::GivesNothing,
];

#[test]
fn without_room_nothing_is_kept(rt: HostRuntime) {
    run(
        &rt,
        &mut ReorderBuffer::without_room(rt.alloc()),
        "no room",
        NO_ROOM,
    );
}

/// A packet that doesn't fit into the buffer stays in its slot.
const SHORT: &[Act] = &[
    Act::Hears(1, 1),
    Act::Hears(3, 3),
    Act::Hears(2, 2),
    Act::FitsNot,
    Act::Gives(3, 3),
];

/// Custody of 10 is the first of this run. 12 to 74 wait for 11: all places but the first are marked. 75 is refused and
/// beyond the places; once custody covers 11 to 14 it is the 61st, and 15 to 74 are marked before it.
const MARKED: &[Act] = &[
    Act::TellsNothing,
    Act::Covers(10),
    Act::Hears(12, 74),
    Act::Refuses(75),
    Act::Tells(0x7fff_ffff_ffff_ffff),
    Act::TellsNothing,
    Act::Covers(14),
    Act::Hears(15, 15),
    Act::Tells(0xffff_ffff_ffff_fff8),
];

/// After the last numbers of 64 bits there are no places: the last one is never stored, and a refusal of 0 is none.
const LAST_MARKED: &[Act] = &[
    Act::Covers(u64::MAX - 2),
    Act::HearsAs(u64::MAX, 1),
    Act::Refuses(0),
    Act::TellsNothing,
    Act::Refuses(u64::MAX),
    Act::Tells(0x4000_0000_0000_0000),
];

const SCRIPTS: [Script; 11] = [
    ("what came early follows what was missing", 1_223, MISSING),
    ("custody of more gives the rest once", 1_223, REST),
    ("two gaps are closed one after the other", 1_223, TWO_GAPS),
    ("numbers far ahead are not kept", 1_223, FAR_AHEAD),
    ("a whole window is kept", 1_223, WINDOW),
    ("what is covered is not given", 1_223, COVERED),
    ("the last number is not kept", 1_223, LAST),
    ("a longer packet is not kept", 21, LONGER),
    ("what does not fit stays", 1_223, SHORT),
    ("what waits or was refused is marked", 1_223, MARKED),
    (
        "places beyond the last number are not marked",
        1_223,
        LAST_MARKED,
    ),
];

#[test]
fn worked_scripts(rt: HostRuntime) {
    for script in &SCRIPTS {
        run_new(&rt, rt.alloc(), *script);
    }
}
