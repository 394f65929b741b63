//! Scripts that are run without a failure, stopped at each device call, and with each call
//! failing.
use crate::device::{FOUR, LONG, SMALL, THREE, first_version, new_image};
use crate::old_device::stored;
use crate::script::{Round, Script, Step};
use crate::stops::{Trial, image_after, try_script};
use Device::{FirstVersion, Left, New, Old};
use Round::{Held, Mixed, Of};
use Step::{Fetch, Pick, Release, Take};
use Trial::{Costs, Head, Stops, Walked};
use rly_core::Geometry;
use std::alloc::Global;
use std::process::Abort;

/// A device before a script.
#[derive(Clone, Copy)]
pub(crate) enum Device {
    New(Geometry),
    /// A new one of three segments, of version 1.
    FirstVersion,
    /// One after this many of the rounds.
    Left(Geometry, usize),
    /// The one of the older version, after this many of the rounds.
    Old(usize),
}

/// A device, the rounds of a script, and its trials.
pub(crate) type Walk = (Device, &'static [Round], &'static [Trial]);

/// Returns the script of a device with these bytes.
fn script_of<'a>(device: Device, rounds: &'static [Round], image: &'a [u8]) -> Script<'a> {
    let (geometry, from) = match device {
        New(geometry) => (geometry, 0),
        FirstVersion => (THREE, 0),
        Left(geometry, from) => (geometry, from),
        Old(from) => (THREE, from),
    };
    Script {
        geometry,
        image,
        rounds,
        from,
        to: rounds.len(),
    }
}

/// Returns the bytes of a device.
fn image_of(rt: &impl Abort, alloc: Global, device: Device, rounds: &'static [Round]) -> Vec<u8> {
    match device {
        New(geometry) => new_image(rt, alloc, &geometry),
        FirstVersion => first_version(rt, alloc),
        Left(geometry, to) => {
            let image = new_image(rt, alloc, &geometry);
            let script = script_of(New(geometry), rounds, &image);
            image_after(rt, alloc, Script { to, ..script })
        }
        Old(_from) => stored(rt, alloc),
    }
}

/// Runs the trials of each script.
pub(crate) fn walk_all(rt: &impl Abort, alloc: Global, walks: &'static [Walk]) {
    for (device, rounds, trials) in walks {
        let image = image_of(rt, alloc, *device, rounds);
        for trial in *trials {
            try_script(rt, alloc, script_of(*device, rounds, &image), *trial);
        }
    }
}

/// Commands one by one: three datagrams are taken, CoDel begins to drop, and segments are opened. On two segments two
/// are opened: the first with three live datagrams, the second with one in flight and its old gate still open.
const COMMANDS: [Round; 15] = [
    Of(Take(1, 0, 0, 1_200), 1),
    Of(Take(2, 100, 0, 1_200), 1),
    Of(Take(3, 200, 0, 1_200), 1),
    Of(Pick(10_000), 1),
    Of(Release(1), 1),
    Of(Take(4, 10_000, 0, 1_200), 1),
    Of(Take(5, 20_000, 0, 400), 1),
    Of(Pick(120_000), 1),
    Of(Take(5, 20_000, 0, 400), 1),
    Of(Pick(130_000), 1),
    Of(Release(2), 1),
    Of(Take(6, 140_000, 0, 1_200), 1),
    Of(Take(8, 140_000, 0, 1), 1),
    Of(Release(3), 1),
    Of(Pick(500_000), 1),
];

/// Commands one by one, some with limits. The Pick at 120,000 finds one expired and drops the next; those at 130,000
/// and at 500,000 leave none. The heads that are opened have a limit or expired datagrams.
const LIMITED: [Round; 15] = [
    Of(Take(1, 0, 0, 1_200), 1),
    Of(Take(2, 100, 20_000, 1_200), 1),
    Of(Take(3, 200, 0, 1_200), 1),
    Of(Pick(10_000), 1),
    Of(Release(1), 1),
    Of(Take(4, 10_000, 0, 1_200), 1),
    Of(Take(5, 20_000, 5, 400), 1),
    Of(Pick(120_000), 1),
    Of(Pick(130_000), 1),
    Of(Take(6, 140_000, 1_099_511_627_775, 1_200), 1),
    Of(Take(7, 140_000, 1, 1_200), 1),
    Of(Release(2), 1),
    Of(Pick(140_002), 1),
    Of(Pick(500_000), 1),
    Of(Release(3), 1),
];

/// 35 mixed steps of 900 bytes.
const SEVENS: [Round; 5] = [
    Mixed(0, 7, 900),
    Mixed(7, 7, 900),
    Mixed(14, 7, 900),
    Mixed(21, 7, 900),
    Mixed(28, 7, 900),
];

/// 180 mixed steps of 300 bytes.
const SIXTY_FOURS: [Round; 3] = [Mixed(0, 64, 300), Mixed(64, 64, 300), Mixed(128, 52, 300)];

/// 30 datagrams.
const HELD: [Round; 15] = [
    Held(1),
    Held(3),
    Held(5),
    Held(7),
    Held(9),
    Held(11),
    Held(13),
    Held(15),
    Held(17),
    Held(19),
    Held(21),
    Held(23),
    Held(25),
    Held(27),
    Held(29),
];

/// The first three of the worked cycles, by payload length: 32 datagrams are taken and picked, all in flight are
/// fetched, and the older 32 are released.
macro_rules! cycles {
    ($length:expr) => {
        [
            Of(Take(1, 0, 0, $length), 32),
            Of(Pick(0), 32),
            Of(Fetch(1), 32),
            Of(Take(33, 0, 0, $length), 32),
            Of(Pick(0), 32),
            Of(Fetch(1), 64),
            Of(Release(32), 1),
            Of(Take(65, 0, 0, $length), 32),
            Of(Pick(0), 32),
            Of(Fetch(33), 64),
            Of(Release(64), 1),
        ]
    };
}

const CYCLES: [Round; 11] = cycles!(1_200);

const LONG_CYCLES: [Round; 11] = cycles!(8_192);

const ROUNDS_OF_ONE_CALL: [Walk; 2] = [
    (New(SMALL), &COMMANDS, &[Walked(76, 33, &[3, 2])]),
    (New(FOUR), &COMMANDS, &[Walked(77, 36, &[4, 2, 3, 0])]),
];

#[test]
fn rounds_of_one_call(rt: HostRuntime) {
    walk_all(&rt, rt.alloc(), &ROUNDS_OF_ONE_CALL);
}

const LIMITS: [Walk; 2] = [
    (New(SMALL), &LIMITED, &[Walked(83, 37, &[3, 2])]),
    (New(FOUR), &LIMITED, &[Walked(85, 40, &[4, 2, 3, 0])]),
];

#[test]
fn limits(rt: HostRuntime) {
    walk_all(&rt, rt.alloc(), &LIMITS);
}

const ROUNDS_OF_SEVEN_CALLS: [Walk; 2] = [
    (New(SMALL), &SEVENS, &[Walked(43, 17, &[3, 2])]),
    (New(FOUR), &SEVENS, &[Walked(51, 23, &[4, 5, 3, 0])]),
];

#[test]
fn rounds_of_seven_calls(rt: HostRuntime) {
    walk_all(&rt, rt.alloc(), &ROUNDS_OF_SEVEN_CALLS);
}

const ROUNDS_OF_SIXTY_FOUR_CALLS: [Walk; 2] = [
    (New(SMALL), &SIXTY_FOURS, &[Walked(34, 13, &[3, 2])]),
    (New(FOUR), &SIXTY_FOURS, &[Walked(32, 13, &[3, 2, 0, 0])]),
];

#[test]
fn rounds_of_sixty_four_calls(rt: HostRuntime) {
    walk_all(&rt, rt.alloc(), &ROUNDS_OF_SIXTY_FOUR_CALLS);
}

/// Six segments are opened, four of them with payloads that are moved: two, and three times four.
const PAYLOADS_IN_THREE_SEGMENTS: [Walk; 1] = [(
    New(FOUR),
    &HELD,
    &[Walked(116, 49, &[7, 6, 3, 4])],
)];

#[test]
fn payloads_in_three_segments(rt: HostRuntime) {
    walk_all(&rt, rt.alloc(), &PAYLOADS_IN_THREE_SEGMENTS);
}

/// Three segments are opened: before the picks of the second cycle, with no payload moved, before those of the third,
/// and before its release, with 32 payloads moved. Opening the device makes 8 calls; each of the eight rounds with
/// commands 4; fetches of all in flight 32, and 64 twice; two of the segments that are opened 5, and the third 6, since
/// its gate is open; and two of them 32 reads.
const THREE_CYCLES: [Walk; 1] = [(New(THREE), &CYCLES, &[Walked(280, 26, &[4, 2, 3])])];

#[test]
fn three_cycles(rt: HostRuntime) {
    walk_all(&rt, rt.alloc(), &THREE_CYCLES);
}

/// The same rounds on a device of version 1, whose payload limit is 1,200 bytes.
const FIRST_VERSION: [Walk; 1] = [(FirstVersion, &CYCLES, &[Walked(280, 26, &[4, 2, 3])])];

#[test]
fn three_cycles_on_a_device_of_version_1(rt: HostRuntime) {
    walk_all(&rt, rt.alloc(), &FIRST_VERSION);
}

/// With payloads of 8,192 bytes, on a device that is formatted for them, they make the same device calls as those of
/// 1,200 bytes on theirs. Takes of 32 of them write a group of 262,887 bytes, and 32 picks one of 359. So a segment is
/// due before the picks of the second cycle, where 526,226 and 525,768 exceed 789,740, before those of the third, where
/// 265,021 does, and before its release, where 264,100 does. The heads have 1,757 bytes if each payload is by device
/// address, and 263,741 if 32 are inline, 13 of them before the state.
const LONG_PAYLOADS: [Walk; 1] = [(
    New(LONG),
    &LONG_CYCLES,
    &[
        Costs(280, 26, &[4, 2, 3]),
        Head(9, 0, [0xa5, 0, 0, 0, 0, 0, 0, 0, 1, 0x80, 0, 0, 0x50]),
        Head(9, 1, [0xa5, 0, 0, 0, 0, 0, 0, 0, 2, 0x80, 0, 0x06, 0xd0]),
        Head(9, 2, [0xa5, 0, 0, 0, 0, 0, 0, 0, 3, 0x80, 0x04, 0x06, 0x30]),
        Head(
            11,
            0,
            [0xa5, 0, 0, 0, 0, 0, 0, 0, 4, 0x80, 0x04, 0x06, 0x30],
        ),
    ],
)];

#[test]
fn three_cycles_of_long_payloads(rt: HostRuntime) {
    walk_all(&rt, rt.alloc(), &LONG_PAYLOADS);
}

/// The picks of their third cycle, for which a segment is opened. Opening the device makes 17 calls: a sync, and reads
/// of the header, of three generations, of the head in two parts, of three groups in three parts each, and of the gate
/// after them. The round makes 41: 32 payloads are read, the head is written in 5 and the group in 4.
const LONG_OPENING: [Walk; 1] = [(Left(LONG, 8), &LONG_CYCLES, &[Stops(9, 18, 58)])];

#[test]
fn a_stop_at_each_call_of_an_opening(rt: HostRuntime) {
    walk_all(&rt, rt.alloc(), &LONG_OPENING);
}
