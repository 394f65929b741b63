//! The rows of the sending core's table.
use crate::expect::{expect, expect_row};
use rly_core::Refusal;
use rly_hop::{Message, OutAction, OutEvent, Sending, StationId, read_message};
use std::process::Abort;

const OWN: StationId = StationId(3);

const HOP: StationId = StationId(7);

const PAYLOAD: &[u8] = &[0x00, 0x0c, 0x41];

/// The maximum limit, 2^40 - 1.
const GREATEST: u64 = 1_099_511_627_775;

/// The last number of 64 bits.
const LAST: u64 = 18_446_744_073_709_551_615;

/// What a core is told: a turn with or without a contact, a window's two numbers, the number of an answer, or none.
#[derive(Clone, Copy)]
enum Told {
    Open,
    Shut,
    WindowIs,
    Picked,
    Fetched,
    Custody,
    Released,
    Unchanged,
    Timeout,
    NothingFound,
    OtherAnswer,
    Broken,
}

/// What it requests: of what has a number that number, and of a Data its limit too.
#[derive(Clone, Copy)]
enum Named {
    Nothing,
    AskWindow,
    Release,
    Fetch,
    Pick,
    Data,
}

use Named::{AskWindow, Data, Fetch, Nothing, Pick, Release};
use Told::{
    Broken, Custody, Fetched, NothingFound, Open, OtherAnswer, Picked, Released, Shut, Timeout,
    Unchanged, WindowIs,
};

/// An event with its numbers.
type Event = (Told, u64, u64);

/// The same, and the action of a core on it with its numbers.
type Row = (Told, u64, u64, Named, u64, u64);

fn event(told: Told, number: u64, second: u64) -> OutEvent<&'static [u8]> {
    match told {
        Open => OutEvent::Turn { is_open: true },
        Shut => OutEvent::Turn { is_open: false },
        WindowIs => OutEvent::WindowIs {
            first: number,
            next: second,
        },
        Picked => OutEvent::Picked(number),
        Fetched => OutEvent::Fetched {
            number,
            limit: second,
            payload: PAYLOAD,
        },
        Custody => OutEvent::Heard(Message::Custody {
            from: HOP,
            to: OWN,
            last: number,
        }),
        Released => OutEvent::Released,
        Unchanged => OutEvent::Unchanged,
        Timeout => OutEvent::Timeout,
        NothingFound => OutEvent::Nothing,
        OtherAnswer => OutEvent::Other,
        Broken => OutEvent::Refused(Refusal::Broken),
    }
}

fn action(named: Named, number: u64, limit: u64) -> Option<OutAction<&'static [u8]>> {
    match named {
        Nothing => None,
        AskWindow => Some(OutAction::AskWindow),
        Release => Some(OutAction::Release(number)),
        Fetch => Some(OutAction::Fetch(number)),
        Pick => Some(OutAction::Pick),
        Data => Some(OutAction::Send(Message::Data {
            from: OWN,
            to: HOP,
            number,
            limit,
            payload: PAYLOAD,
        })),
    }
}

/// What a script shows, a window, the flight from its first number to the one after its last (0 and 0: not ready), and actions.
type Script = (&'static str, u64, [u64; 2], &'static [Row]);

const SCRIPTS: [Script; 26] = [
    (
        "a core that is not ready asks for the window",
        8,
        [0, 0],
        &[
            (Shut, 0, 0, AskWindow, 0, 0),
            (Open, 0, 0, AskWindow, 0, 0),
            (WindowIs, 3, 5, Nothing, 0, 0),
            (Open, 0, 0, Fetch, 3, 0),
        ],
    ),
    (
        "what is acknowledged is released first",
        8,
        [3, 6],
        &[
            (Custody, 4, 0, Nothing, 0, 0),
            (Shut, 0, 0, Release, 4, 0),
            (Open, 0, 0, Release, 4, 0),
            (Released, 0, 0, Nothing, 0, 0),
            (Open, 0, 0, Fetch, 5, 0),
        ],
    ),
    (
        "nothing of a flight is sent while no contact is open",
        8,
        [3, 6],
        &[(Shut, 0, 0, Nothing, 0, 0)],
    ),
    (
        "nothing is picked while no contact is open",
        8,
        [3, 3],
        &[(Shut, 0, 0, Nothing, 0, 0)],
    ),
    (
        "the flight is sent in order, and then more is picked",
        8,
        [3, 5],
        &[
            (Open, 0, 0, Fetch, 3, 0),
            (Fetched, 3, 0, Data, 3, 0),
            (Open, 0, 0, Fetch, 4, 0),
            (Fetched, 4, 0, Data, 4, 0),
            (Open, 0, 0, Pick, 0, 0),
            (Picked, 5, 0, Nothing, 0, 0),
            (Open, 0, 0, Fetch, 5, 0),
        ],
    ),
    (
        "what was fetched with a limit goes out with it, at the first time and again",
        8,
        [3, 6],
        &[
            (Fetched, 3, 1, Data, 3, 1),
            (Fetched, 4, GREATEST, Data, 4, GREATEST),
            (Fetched, 5, 0, Data, 5, 0),
            (Timeout, 0, 0, Nothing, 0, 0),
            (Open, 0, 0, Fetch, 3, 0),
            (Fetched, 3, 1, Data, 3, 1),
        ],
    ),
    (
        "a window of one picks nothing once two are sent",
        1,
        [3, 5],
        &[
            (Fetched, 3, 0, Data, 3, 0),
            (Fetched, 4, 0, Data, 4, 0),
            (Open, 0, 0, Nothing, 0, 0),
        ],
    ),
    (
        "a window of two picks nothing once two are sent",
        2,
        [3, 5],
        &[
            (Fetched, 3, 0, Data, 3, 0),
            (Fetched, 4, 0, Data, 4, 0),
            (Open, 0, 0, Nothing, 0, 0),
        ],
    ),
    (
        "a window of three picks once two are sent",
        3,
        [3, 5],
        &[
            (Fetched, 3, 0, Data, 3, 0),
            (Fetched, 4, 0, Data, 4, 0),
            (Open, 0, 0, Pick, 0, 0),
        ],
    ),
    (
        "a window begins anew",
        8,
        [3, 6],
        &[
            (Fetched, 3, 0, Data, 3, 0),
            (Custody, 3, 0, Nothing, 0, 0),
            (WindowIs, 7, 9, Nothing, 0, 0),
            (Open, 0, 0, Fetch, 7, 0),
            (WindowIs, 9, 7, Nothing, 0, 0),
            (Open, 0, 0, Fetch, 7, 0),
        ],
    ),
    (
        "another number is no pick",
        8,
        [3, 3],
        &[
            (Picked, 4, 0, Nothing, 0, 0),
            (Picked, 2, 0, Nothing, 0, 0),
            (Open, 0, 0, Pick, 0, 0),
        ],
    ),
    (
        "the last number of 64 bits is no pick",
        8,
        [LAST, LAST],
        &[(Picked, LAST, 0, Nothing, 0, 0), (Open, 0, 0, Pick, 0, 0)],
    ),
    (
        "a core that is not ready has no pick",
        8,
        [0, 0],
        &[(Picked, 1, 0, Nothing, 0, 0), (Open, 0, 0, AskWindow, 0, 0)],
    ),
    (
        "another payload is not sent",
        8,
        [3, 6],
        &[
            (Fetched, 4, 0, Nothing, 0, 0),
            (Fetched, 2, 0, Nothing, 0, 0),
            (Open, 0, 0, Fetch, 3, 0),
        ],
    ),
    (
        "none is sent of an empty flight",
        8,
        [3, 3],
        &[(Fetched, 3, 0, Nothing, 0, 0)],
    ),
    (
        "none is sent by a core that is not ready",
        8,
        [0, 0],
        &[(Fetched, 1, 0, Nothing, 0, 0)],
    ),
    (
        "a release moves the flight",
        8,
        [3, 6],
        &[
            (Custody, 4, 0, Nothing, 0, 0),
            (Released, 0, 0, Nothing, 0, 0),
            (Open, 0, 0, Fetch, 5, 0),
        ],
    ),
    (
        "a release that changes nothing moves the flight",
        8,
        [3, 6],
        &[
            (Custody, 4, 0, Nothing, 0, 0),
            (Unchanged, 0, 0, Nothing, 0, 0),
            (Open, 0, 0, Fetch, 5, 0),
        ],
    ),
    (
        "a release leaves a cursor behind it",
        8,
        [3, 6],
        &[
            (Fetched, 3, 0, Data, 3, 0),
            (Fetched, 4, 0, Data, 4, 0),
            (Custody, 3, 0, Nothing, 0, 0),
            (Released, 0, 0, Nothing, 0, 0),
            (Open, 0, 0, Fetch, 5, 0),
        ],
    ),
    (
        "a core that is not ready hears no custody",
        8,
        [0, 0],
        &[
            (Custody, 1, 0, Nothing, 0, 0),
            (Open, 0, 0, AskWindow, 0, 0),
        ],
    ),
    (
        "the greatest custody counts, where it comes first",
        8,
        [3, 6],
        &[
            (Custody, 5, 0, Nothing, 0, 0),
            (Custody, 3, 0, Nothing, 0, 0),
            (Open, 0, 0, Release, 5, 0),
        ],
    ),
    (
        "the greatest custody counts, where it comes last",
        8,
        [3, 6],
        &[
            (Custody, 3, 0, Nothing, 0, 0),
            (Custody, 5, 0, Nothing, 0, 0),
            (Open, 0, 0, Release, 5, 0),
        ],
    ),
    (
        "a timeout sends the flight again",
        8,
        [3, 6],
        &[
            (Fetched, 3, 0, Data, 3, 0),
            (Fetched, 4, 0, Data, 4, 0),
            (Timeout, 0, 0, Nothing, 0, 0),
            (Open, 0, 0, Fetch, 3, 0),
        ],
    ),
    (
        "other events change nothing",
        8,
        [3, 6],
        &[
            (Fetched, 3, 0, Data, 3, 0),
            (NothingFound, 0, 0, Nothing, 0, 0),
            (OtherAnswer, 0, 0, Nothing, 0, 0),
            (Open, 0, 0, Fetch, 4, 0),
        ],
    ),
    (
        "an answer without a release moves nothing",
        8,
        [3, 6],
        &[
            (Released, 0, 0, Nothing, 0, 0),
            (Unchanged, 0, 0, Nothing, 0, 0),
            (Open, 0, 0, Fetch, 3, 0),
        ],
    ),
    (
        "custody outside of the flight is ignored",
        8,
        [3, 6],
        &[
            (Custody, 2, 0, Nothing, 0, 0),
            (Custody, 6, 0, Nothing, 0, 0),
            (Open, 0, 0, Fetch, 3, 0),
        ],
    ),
];

/// A core with a window, and with a flight if it is ready.
fn core_of(window: u64, [first, next]: [u64; 2]) -> Sending {
    let mut core = Sending::new(OWN, HOP, window);
    if first > 0 {
        let _ = core.step(event(WindowIs, first, next));
    }
    core
}

/// Checks the actions of a core against a script.
fn names<R: Abort>(rt: &R, (shows, window, flight, rows): Script) {
    let mut core = core_of(window, flight);
    for (index, (told, number, second, named, third, limit)) in rows.iter().enumerate() {
        let found = core.step(event(*told, *number, *second));
        expect_row(
            rt,
            found == action(*named, *third, *limit),
            shows,
            index as u64,
        );
    }
}

fn names_each(rt: &impl Abort, scripts: &[Script]) {
    for script in scripts {
        names(rt, *script);
    }
}

#[test]
fn each_script_is_followed(rt: HostRuntime) {
    names_each(&rt, &SCRIPTS);
}

/// What says nothing to a core whose flight is from 3 to 5: custody of number 4 of another station, for another station,
/// and from this one to the hop's; and a Data, a Refused and a Heard of the hop's station.
const STRAYS: [&[u8]; 6] = [
    b"\x52\x4c\x01\x02\x00\x09\x00\x03\x00\x00\x00\x00\x00\x00\x00\x04",
    b"\x52\x4c\x01\x02\x00\x07\x00\x09\x00\x00\x00\x00\x00\x00\x00\x04",
    b"\x52\x4c\x01\x02\x00\x03\x00\x07\x00\x00\x00\x00\x00\x00\x00\x04",
    b"\x52\x4c\x01\x01\x00\x07\x00\x03\x00\x00\x00\x00\x00\x00\x00\x04\x00\x03\x00\x0c\x41",
    b"\x52\x4c\x01\x03\x00\x07\x00\x03\x00\x00\x00\x00\x00\x00\x00\x04\x06",
    b"\x52\x4c\x01\x05\x00\x07\x00\x03\x00\x00\x00\x00\x00\x00\x00\x03\x80\x00\x00\x00\x00\x00\x00\x00",
];

/// Checks that a core that has sent 3 requests nothing on these packets, and the Fetch of 4 in its next turn.
fn ignores(rt: &impl Abort, packets: &[&[u8]]) {
    let mut core = core_of(8, [3, 6]);
    let _ = core.step(event(Fetched, 3, 0));
    for (index, packet) in packets.iter().enumerate() {
        let found = match read_message(packet) {
            Ok(message) => core.step(OutEvent::Heard(message)),
            Err(_) => panic!(rt; "a message"),
        };
        expect_row(
            rt,
            found == None,
            "other packets change nothing",
            index as u64,
        );
    }
    let next = core.step(event(Open, 0, 0));
    expect_row(rt, next == action(Fetch, 4, 0), "the next turn", 6);
}

#[test]
fn other_packets_change_nothing(rt: HostRuntime) {
    ignores(&rt, &STRAYS);
}

/// A refusal told to a core whose flight is from 3 to 5, and whether it asks for the window in its next turn.
const REFUSALS: [(Refusal, bool); 13] = [
    (Refusal::NeverSent, true),
    (Refusal::NotInFlight, true),
    (Refusal::Broken, true),
    (Refusal::Unsure, true),
    (Refusal::Lost, true),
    (Refusal::NoSuchHop, false),
    (Refusal::BadMoment, false),
    (Refusal::WindowFull, false),
    (Refusal::Empty, false),
    (Refusal::DeviceRead, false),
    (Refusal::OutOfMemory, false),
    (Refusal::Spent, false),
    (Refusal::Closed, false),
];

/// Checks the action of a core's next turn after a refusal.
fn next_after<R: Abort>(rt: &R, row: u64, (refusal, asks): (Refusal, bool)) {
    let mut core = core_of(8, [3, 6]);
    let _ = core.step(OutEvent::Refused(refusal));
    let named = if asks { AskWindow } else { Fetch };
    let found = core.step(event(Open, 0, 0));
    expect_row(rt, found == action(named, 3, 0), "the next turn", row);
}

fn next_after_each(rt: &impl Abort, rows: &[(Refusal, bool)]) {
    for (index, row) in rows.iter().enumerate() {
        next_after(rt, index as u64, *row);
    }
}

#[test]
fn refusals_are_followed_by_a_turn(rt: HostRuntime) {
    next_after_each(&rt, &REFUSALS);
}

/// An event on a core whose flight is from 3 to 5, and whether a number is acknowledged after it.
const ACKNOWLEDGED: [(Told, u64, bool); 4] = [
    (Custody, 6, false),
    (Custody, 4, true),
    (Timeout, 0, true),
    (Released, 0, false),
];

/// An acknowledged number waits for its release. A core gets only these events, and requests nothing on them.
fn acknowledges<R: Abort>(rt: &R, rows: &[(Told, u64, bool)]) {
    let mut core = core_of(8, [3, 6]);
    for (told, number, is_acknowledged) in rows {
        let found = core.step(event(*told, *number, 0));
        let holds = found == None && core.has_acknowledged() == *is_acknowledged;
        expect(rt, holds, "it waits for its release");
    }
}

#[test]
fn what_is_acknowledged_waits_for_its_release(rt: HostRuntime) {
    acknowledges(&rt, &ACKNOWLEDGED);
}

/// What these show, events on a core whose flight is from 3 to 6, numbers that are to be sent again after them, each with
/// its limit and whether it is, and the action of the turn after them with its number.
type Repeats = (
    &'static str,
    &'static [Event],
    &'static [(u64, u64, bool)],
    Named,
    u64,
);

const REPEATS: [Repeats; 6] = [
    (
        "below the cursor a number is sent again, and the cursor stays",
        &[(Fetched, 3, 1), (Fetched, 4, 0)],
        &[
            (3, 1, true),
            (4, 0, true),
            (4, GREATEST, true),
            (3, 1, true),
        ],
        Fetch,
        5,
    ),
    (
        "from the cursor on none is sent again",
        &[(Fetched, 3, 0), (Fetched, 4, 0)],
        &[
            (5, 0, false),
            (6, 0, false),
            (7, 0, false),
            (LAST, 0, false),
        ],
        Fetch,
        5,
    ),
    (
        "below the flight none is sent again",
        &[(Fetched, 3, 0), (Fetched, 4, 0)],
        &[(2, 0, false), (0, 0, false)],
        Fetch,
        5,
    ),
    (
        "what was released is not sent again",
        &[
            (Fetched, 3, 0),
            (Fetched, 4, 0),
            (Custody, 3, 0),
            (Released, 0, 0),
        ],
        &[(3, 0, false), (4, 0, true)],
        Fetch,
        5,
    ),
    (
        "after a timeout only what was sent since is sent again",
        &[
            (Fetched, 3, 0),
            (Fetched, 4, 0),
            (Timeout, 0, 0),
            (Fetched, 3, 0),
        ],
        &[(3, 0, true), (4, 0, false)],
        Fetch,
        4,
    ),
    (
        "a core that is not ready sends none again",
        &[(Fetched, 3, 0), (Fetched, 4, 0), (Broken, 0, 0)],
        &[(3, 0, false), (4, 0, false)],
        AskWindow,
        0,
    ),
];

/// Checks what a core sends again.
fn sends_again<R: Abort>(rt: &R, (shows, events, numbers, named, number): Repeats) {
    let mut core = core_of(8, [3, 7]);
    for (told, number, second) in events {
        let _ = core.step(event(*told, *number, *second));
    }
    for (index, (number, limit, is_sent)) in numbers.iter().enumerate() {
        let named = if *is_sent { Data } else { Nothing };
        let again = core.repeat(*number, *limit, PAYLOAD);
        expect_row(
            rt,
            again == action(named, *number, *limit),
            shows,
            index as u64,
        );
    }
    expect(
        rt,
        core.step(event(Open, 0, 0)) == action(named, number, 0),
        shows,
    );
}

fn sends_each_again(rt: &impl Abort, each: &[Repeats]) {
    for repeats in each {
        sends_again(rt, *repeats);
    }
}

#[test]
fn what_was_sent_is_sent_again(rt: HostRuntime) {
    sends_each_again(&rt, &REPEATS);
}
