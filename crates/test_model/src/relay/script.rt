//! The requests to a relay, and its replies.
use rly_core::{Geometry, HopId, PeerId, Refusal};
use rly_disk::{After, Torn};
use rly_machine::{Answer, Ask, Command, HopStatus, Payload, Query, Reply, SeatId};
use rly_world_relay::{Relay, Step};
use std::alloc::Global;
use std::process::Abort;

/// The one hop, peer and seat.
pub(crate) const HOP: HopId = HopId(1);

pub(crate) const PEER: PeerId = PeerId(1);

pub(crate) const SEAT: SeatId = SeatId(0);

/// A request.
#[derive(Clone, Copy)]
pub(crate) enum Act {
    /// The Take of a datagram of this number with this limit and this many bytes, each equal to the low byte of that
    /// number. All come at time 0.
    Take(u64, u64, usize),
    /// The Pick at a time.
    Pick(u64),
    Fetch(u64),
    Release(u64),
    Show,
}

/// The numbers of datagrams that a hop took, has waiting and in flight, dropped, expired and released.
pub(crate) type Counts = (u64, u64, u64, u64, u64, u64);

/// Consecutive ids: the first, and their number. It is `None` if others are between them.
pub(crate) type Run = Option<(u64, u64)>;

/// No ids.
pub(crate) const NONE: Run = Some((0, 0));

/// The content of a reply.
#[derive(Clone, Copy, PartialEq, Eq)]
pub(crate) enum Told {
    Taken(u64),
    /// A number, its datagram's id, and those that expired and were dropped.
    Picked(u64, u64, Run, Run),
    /// None is left after these expired.
    Nothing(Run),
    /// A limit, and this many bytes, each equal to this one.
    Bytes(u64, Option<u8>, usize),
    Released(u64),
    Shown(Counts),
    Refused(Refusal),
    Other,
}

/// A request, and its reply.
pub(crate) type Row = (Act, Told);

/// Returns the request of an act.
fn ask_of<R: Abort>(rt: &R, alloc: Global, act: Act) -> Ask {
    match act {
        Act::Take(number, limit, length) => take(rt, alloc, number, (limit, length)),
        Act::Pick(now) => Ask::Command(Command::Pick { hop: HOP, now }),
        Act::Fetch(number) => Ask::Query(Query::Fetch { hop: HOP, number }),
        Act::Release(number) => Ask::Command(Command::Release { hop: HOP, number }),
        Act::Show => Ask::Query(Query::Show { hop: HOP }),
    }
}

/// Returns the request of a Take.
fn take<R: Abort>(rt: &R, alloc: Global, number: u64, (limit, length): (u64, usize)) -> Ask {
    let bytes = vec![in alloc; number.to_le_bytes()[0]; length].expect(rt, "memory");
    Ask::Command(Command::Take {
        peer: PEER,
        number,
        hop: HOP,
        stamp: 0,
        limit,
        payload: Payload::new(bytes),
    })
}

/// Returns these ids if they are consecutive.
fn run_of(ids: &[u64]) -> Run {
    let first = ids.first().copied().unwrap_or(0);
    let mut next = first;
    for id in ids {
        if *id != next {
            return None;
        }
        next = next.saturating_add(1);
    }
    Some((first, ids.len() as u64))
}

/// Returns the value of each of these bytes.
fn byte_of(bytes: &[u8]) -> Option<u8> {
    let first = bytes.first().copied().unwrap_or(0);
    match bytes.iter().all(|byte| *byte == first) {
        true => Some(first),
        false => None,
    }
}

fn counts_of(status: &HopStatus) -> Counts {
    (
        status.taken,
        status.queued,
        status.flight,
        status.dropped,
        status.expired,
        status.released,
    )
}

/// Returns the content of a reply.
fn told_by(reply: &Reply) -> Told {
    match reply {
        Reply::Taken(id) => Told::Taken(*id),
        Reply::Picked {
            number,
            id,
            expired,
            dropped,
        } => Told::Picked(
            *number,
            *id,
            run_of(expired.as_slice()),
            run_of(dropped.as_slice()),
        ),
        Reply::Nothing { expired } => Told::Nothing(run_of(expired.as_slice())),
        Reply::Bytes { payload, limit } => Told::Bytes(
            *limit,
            byte_of(payload.as_slice()),
            payload.as_slice().len(),
        ),
        Reply::Released(count) => Told::Released(*count),
        Reply::Shown(status) => Told::Shown(counts_of(status)),
        Reply::Refused(refusal) => Told::Refused(*refusal),
        _ => Told::Other,
    }
}

/// Returns the content of the replies after the first ones.
pub(crate) fn told_in<R: Abort>(
    rt: &R,
    alloc: Global,
    answers: &[Answer],
    before: usize,
) -> Vec<Told> {
    let mut told = Vec::new(alloc);
    for answer in answers.iter().skip(before) {
        told.push(told_by(&answer.reply)).expect(rt, "memory");
    }
    told
}

/// Makes a step, with ample memory.
pub(crate) fn step<R: Abort>(rt: &R, relay: &mut Relay, next: Step) {
    expect!(rt; relay.step(next).is_ok());
}

/// Opens the relay on its disk, whose call of this number fails; with 0 none does.
pub(crate) fn open_at<R: Abort>(rt: &R, relay: &mut Relay, at: u64) {
    let opening = Step::Opening {
        at,
        torn: 0,
        after: After::GoesOn,
    };
    step(rt, relay, opening);
}

/// Stops it, and opens it on its disk.
pub(crate) fn open_again<R: Abort>(rt: &R, relay: &mut Relay, torn: Torn) {
    step(rt, relay, Step::Crash(torn));
    open_at(rt, relay, 0);
}

/// Makes a relay on a new device, which is open. A caller makes one call that borrows it.
pub(crate) fn new_relay<R: Abort>(rt: &R, alloc: Global, device: &Geometry) -> Relay {
    let mut relay = Relay::new(alloc, device, 1).ok().expect(rt, "a relay");
    open_at(rt, &mut relay, 0);
    relay
}

/// Returns the requests of these.
fn asks_of<R: Abort>(rt: &R, alloc: Global, rows: &[Row]) -> Vec<Ask> {
    let mut asks = Vec::new(alloc);
    for (act, _told) in rows {
        asks.push(ask_of(rt, alloc, *act)).ok().expect(rt, "memory");
    }
    asks
}

/// Runs the requests in one round, and returns the content of the replies. There are none if the relay isn't open.
pub(crate) fn told_of<R: Abort>(
    rt: &R,
    alloc: Global,
    relay: &mut Relay,
    rows: &[Row],
) -> Vec<Told> {
    let before = relay.replies_of(SEAT).len();
    step(rt, relay, Step::Put(SEAT, asks_of(rt, alloc, rows)));
    step(rt, relay, Step::Round(64));
    step(rt, relay, Step::Hear(SEAT));
    told_in(rt, alloc, relay.replies_of(SEAT), before)
}

/// Returns true iff each has this reply.
fn are_told(told: &[Told], rows: &[Row]) -> bool {
    told.len() == rows.len()
        && told
            .iter()
            .zip(rows)
            .all(|(found, (_act, want))| found == want)
}

/// Runs these in one round.
pub(crate) fn expect_round<R: Abort>(rt: &R, alloc: Global, relay: &mut Relay, rows: &[Row]) {
    let told = told_of(rt, alloc, relay, rows);
    expect!(rt; are_told(&told, rows));
}

/// Runs each in a round of its own.
pub(crate) fn expect_alone<R: Abort>(rt: &R, alloc: Global, relay: &mut Relay, rows: &[Row]) {
    for row in rows {
        expect_round(rt, alloc, relay, &[*row]);
    }
}

/// Returns the content of the reply to one request, if there is one.
pub(crate) fn told_once<R: Abort>(
    rt: &R,
    alloc: Global,
    relay: &mut Relay,
    act: Act,
) -> Option<Told> {
    let told = told_of(rt, alloc, relay, &[(act, Told::Other)]);
    told.first().copied()
}
