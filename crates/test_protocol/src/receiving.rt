//! The rows of the receiving core's table.
use crate::expect::expect_row;
use rly_core::Refusal;
use rly_hop::{InAction, InEvent, Message, Receiving, StationId, TakeAnswer, read_message};
use std::process::Abort;

const OWN: StationId = StationId(7);

const PEER: StationId = StationId(3);

const PAYLOAD: &[u8] = &[0x00, 0x0c, 0x41];

/// The maximum limit, 2^40 - 1.
const GREATEST: u64 = 1_099_511_627_775;

/// What a core is told: Data of the peer's station with a number and a limit, the answer to a Take, or that there is none.
#[derive(Clone, Copy)]
enum Told {
    Data,
    Taken,
    Already,
    OtherAnswer,
    Lost,
}

/// What it requests: a Take with a number and a limit, custody up to a number, or a refusal of number 5.
#[derive(Clone, Copy)]
enum Named {
    Nothing,
    Take,
    Custody,
    Refused,
}

use Named::{Custody, Nothing, Refused, Take};
use Told::{Already, Data, Lost, OtherAnswer, Taken};

/// An event with its numbers, and the action of a core on it with its numbers.
type Row = (Told, u64, u64, Named, u64, u64);

fn event(told: Told, number: u64, limit: u64) -> InEvent<&'static [u8]> {
    match told {
        Data => InEvent::Heard(Message::Data {
            from: PEER,
            to: OWN,
            number,
            limit,
            payload: PAYLOAD,
        }),
        Taken => InEvent::Answered(TakeAnswer::Taken),
        Already => InEvent::Answered(TakeAnswer::Already(number)),
        OtherAnswer => InEvent::Answered(TakeAnswer::Other),
        Lost => InEvent::Lost,
    }
}

fn action(named: Named, number: u64, limit: u64) -> Option<InAction<&'static [u8]>> {
    match named {
        Nothing => None,
        Take => Some(InAction::Take {
            number,
            limit,
            payload: PAYLOAD,
        }),
        Custody => Some(InAction::Send(Message::Custody {
            from: OWN,
            to: PEER,
            last: number,
        })),
        Refused => Some(InAction::Send(Message::Refused {
            from: OWN,
            to: PEER,
            number: 5,
            refusal: u8::try_from(number).unwrap_or(0),
        })),
    }
}

/// What a script shows, and the actions of a new core on events, in order.
type Script = (&'static str, &'static [Row]);

const SCRIPTS: [Script; 7] = [
    (
        "data of the peer's station is taken",
        &[(Data, 5, 0, Take, 5, 0)],
    ),
    (
        "a limit goes into its take unchanged, and into no other one",
        &[
            (Data, 1, 1, Take, 1, 1),
            (Taken, 0, 0, Custody, 1, 0),
            (Data, 2, GREATEST, Take, 2, GREATEST),
            (Data, 3, 5_000, Nothing, 0, 0),
            (Taken, 0, 0, Custody, 2, 0),
            (Data, 3, 0, Take, 3, 0),
        ],
    ),
    (
        "one take waits at a time",
        &[
            (Data, 5, 0, Take, 5, 0),
            (Data, 6, 0, Nothing, 0, 0),
            (Taken, 0, 0, Custody, 5, 0),
            (Data, 6, 0, Take, 6, 0),
        ],
    ),
    (
        "what is lost ends the wait",
        &[
            (Data, 5, 0, Take, 5, 0),
            (Lost, 0, 0, Nothing, 0, 0),
            (Data, 6, 0, Take, 6, 0),
        ],
    ),
    (
        "an answer that nothing waits for changes nothing",
        &[
            (Taken, 0, 0, Nothing, 0, 0),
            (Already, 8, 0, Nothing, 0, 0),
            (Lost, 0, 0, Nothing, 0, 0),
            (Data, 1, 0, Take, 1, 0),
        ],
    ),
    (
        "custody of what was taken before is that of the last number",
        &[
            (Data, 5, 0, Take, 5, 0),
            (Already, 8, 0, Custody, 8, 0),
            (Data, 6, 0, Take, 6, 0),
        ],
    ),
    (
        "another answer is not sent",
        &[
            (Data, 5, 0, Take, 5, 0),
            (OtherAnswer, 0, 0, Nothing, 0, 0),
            (Data, 6, 0, Take, 6, 0),
        ],
    ),
];

/// Checks the actions of a core against a script.
fn names<R: Abort>(rt: &R, (shows, rows): Script) {
    let mut core = Receiving::new(OWN, PEER);
    for (index, (told, number, limit, named, second, third)) in rows.iter().enumerate() {
        let found = core.step(event(*told, *number, *limit));
        expect_row(
            rt,
            found == action(*named, *second, *third),
            shows,
            index as u64,
        );
    }
}

fn names_each(rt: &impl Abort, scripts: &[Script]) {
    for script in scripts {
        names(rt, *script);
    }
}

#[test]
fn each_script_is_followed(rt: HostRuntime) {
    names_each(&rt, &SCRIPTS);
}

/// What is no Data of the peer's station for this one: Data number 5 of another station, for another station, and from
/// this one to the peer's, and a Custody, a Refused and a Heard of the peer's station.
const STRAYS: [&[u8]; 6] = [
    b"\x52\x4c\x01\x01\x00\x09\x00\x07\x00\x00\x00\x00\x00\x00\x00\x05\x00\x03\x00\x0c\x41",
    b"\x52\x4c\x01\x01\x00\x03\x00\x09\x00\x00\x00\x00\x00\x00\x00\x05\x00\x03\x00\x0c\x41",
    b"\x52\x4c\x01\x01\x00\x07\x00\x03\x00\x00\x00\x00\x00\x00\x00\x05\x00\x03\x00\x0c\x41",
    b"\x52\x4c\x01\x02\x00\x03\x00\x07\x00\x00\x00\x00\x00\x00\x00\x05",
    b"\x52\x4c\x01\x03\x00\x03\x00\x07\x00\x00\x00\x00\x00\x00\x00\x05\x06",
    b"\x52\x4c\x01\x05\x00\x03\x00\x07\x00\x00\x00\x00\x00\x00\x00\x05\x60\x00\x00\x00\x00\x00\x00\x00",
];

/// An answer to the Take of number 5, and the action on it.
type Answered = (Refusal, Named, u64);

const REFUSALS: [Answered; 20] = [
    // custody follows a gap
    (Refusal::Gap(3), Custody, 2),
    (Refusal::Gap(1), Custody, 0),
    (Refusal::Gap(0), Nothing, 0),
    // six refusals are sent
    (Refusal::NoSuchPeer, Refused, 1),
    (Refusal::NoSuchHop, Refused, 2),
    (Refusal::BadMoment, Refused, 3),
    (Refusal::TooLong, Refused, 5),
    (Refusal::Full, Refused, 6),
    (Refusal::Spent, Refused, 15),
    // other refusals are not sent
    (Refusal::WindowFull, Nothing, 0),
    (Refusal::Empty, Nothing, 0),
    (Refusal::NeverSent, Nothing, 0),
    (Refusal::NotInFlight, Nothing, 0),
    (Refusal::Broken, Nothing, 0),
    (Refusal::Unsure, Nothing, 0),
    (Refusal::DeviceRead, Nothing, 0),
    (Refusal::OutOfMemory, Nothing, 0),
    (Refusal::Line, Nothing, 0),
    (Refusal::Closed, Nothing, 0),
    (Refusal::Lost, Nothing, 0),
];

/// A refusal has this action, and ends the wait: Data 6 is taken after it.
fn follows<R: Abort>(rt: &R, row: u64, (refusal, named, number): Answered) {
    let mut core = Receiving::new(OWN, PEER);
    let _ = core.step(event(Data, 5, 0));
    let answered = core.step(InEvent::Answered(TakeAnswer::Refused(refusal)));
    expect_row(
        rt,
        answered == action(named, number, 0),
        "what follows a refusal",
        row,
    );
    let next = core.step(event(Data, 6, 0));
    expect_row(rt, next == action(Take, 6, 0), "the next take", row);
}

fn follows_each(rt: &impl Abort, answers: &[Answered]) {
    for (index, row) in answers.iter().enumerate() {
        follows(rt, index as u64, *row);
    }
}

#[test]
fn each_refusal_is_followed(rt: HostRuntime) {
    follows_each(&rt, &REFUSALS);
}

/// Checks that a core requests nothing on these packets, and a Take on Data 6 after them.
fn ignores(rt: &impl Abort, packets: &[&[u8]]) {
    let mut core = Receiving::new(OWN, PEER);
    for (index, packet) in packets.iter().enumerate() {
        let found = match read_message(packet) {
            Ok(message) => core.step(InEvent::Heard(message)),
            Err(_) => panic!(rt; "a message"),
        };
        expect_row(rt, found == None, "nothing else is taken", index as u64);
    }
    let next = core.step(event(Data, 6, 0));
    expect_row(rt, next == action(Take, 6, 0), "the next take", 6);
}

#[test]
fn nothing_else_is_taken(rt: HostRuntime) {
    ignores(&rt, &STRAYS);
}
