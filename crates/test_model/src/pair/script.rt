//! Acts on two relays, and the packets that are sent for them: a script is a list of stages, and a
//! stage is a table.
use crate::expect::expect;
use rly_core::{Geometry, HopId, PeerId};
use rly_disk::{After, Torn};
use rly_hop::Message;
use rly_machine::{Ask, Command, Payload};
use rly_world_pair::{Fault, Pair, Step};
use std::alloc::Global;
use std::process::Abort;

/// An act on two relays. A packet has its index in the order of sending, and a time is one of the hop's link clock.
#[derive(Clone, Copy)]
pub(crate) enum Act {
    /// The upper takes the datagram of this number from its own peer, with this limit and this many bytes, each equal
    /// to that number. All come at time 0.
    ComesIn(u64, u64, usize),
    /// The sending core runs with the contact open, and its request waits.
    Turn(u64),
    /// A datagram is picked before the core's request.
    PicksAhead(u64),
    /// The core is to resend the datagrams in flight.
    Timeout,
    /// The first call that waits at the upper is made, or gets its reply.
    UpperMakes,
    UpperAnswers,
    /// The sending core makes this many requests with the contact open, each of which is made and gets its reply.
    Calls(u64, u64),
    /// A packet arrives at the upper.
    UpperHears(usize),
    /// A packet arrives at the lower, whose Take isn't made yet.
    LowerHears(usize),
    LowerMakes,
    LowerAnswers,
    /// A packet arrives at the lower, whose Take is made and gets its reply.
    LowerTakes(usize),
    /// Another client picks at the lower.
    LowerPicks(u64),
    /// An end crashes. It is reopened on a device whose call of this number fails; with 0 none does.
    UpperCrashes(Torn, u64),
    LowerCrashes(Torn, u64),
}

/// A request of the sending core at time 0, which is made and gets its reply.
pub(crate) const ONE_CALL: Act = Act::Calls(0, 1);

/// The content of a packet.
#[derive(Clone, Copy)]
pub(crate) enum Said {
    /// The datagram under this custody number, with this limit: this byte, repeated.
    Data(u64, u64, u8, usize),
    /// All up to this number are taken.
    Custody(u64),
    /// The one under this number is refused, for this reason.
    Refused(u64, u8),
}

/// Acts, and the packets that are sent for them, in this order.
#[derive(Clone, Copy)]
pub(crate) struct Stage<'a> {
    pub(crate) acts: &'a [Act],
    pub(crate) sent: &'a [Said],
}

/// The stages of two relays on new devices, the upper's and the lower's.
#[derive(Clone, Copy)]
pub(crate) struct Script<'a> {
    pub(crate) shows: &'static str,
    pub(crate) upper: &'a Geometry,
    pub(crate) lower: &'a Geometry,
    pub(crate) stages: &'a [Stage<'a>],
}

/// Returns true iff a payload is this byte, `length` times.
fn is_made_of(payload: &Payload, byte: u8, length: usize) -> bool {
    let bytes = payload.as_slice();
    bytes.len() == length && bytes.iter().all(|found| *found == byte)
}

/// Returns true iff a packet has this content.
fn says(message: &Message<Payload>, said: Said) -> bool {
    match (message, said) {
        (
            Message::Data {
                number,
                limit,
                payload,
                ..
            },
            Said::Data(sent, its_limit, byte, length),
        ) => (*number, *limit) == (sent, its_limit) && is_made_of(payload, byte, length),
        (Message::Custody { last, .. }, Said::Custody(taken)) => *last == taken,
        (
            Message::Refused {
                number,
                refusal,
                ..
            },
            Said::Refused(refused, why),
        ) => (*number, *refusal) == (refused, why),
        _ => false,
    }
}

/// Returns true iff the packets have exactly these contents, in this order.
pub(crate) fn say(packets: &[Message<Payload>], wanted: &[Said]) -> bool {
    packets.len() == wanted.len()
        && packets
            .iter()
            .zip(wanted)
            .all(|(message, want)| says(message, *want))
}

/// The pair makes a step. Without a clause about its result, a test with many steps is proved as fast as one with few.
fn step<R: Abort>(rt: &R, alloc: Global, pair: &mut Pair, step: Step) {
    pair.step(alloc, step).ok().expect(rt, "a step");
}

/// The upper takes a datagram from its own peer.
fn comes_in<R: Abort>(rt: &R, alloc: Global, number: u64, (limit, length): (u64, usize)) -> Step {
    let bytes = vec![in alloc; number.to_le_bytes()[0]; length].expect(rt, "memory");
    let take = Command::Take {
        peer: PeerId(1),
        number,
        hop: HopId(1),
        stamp: 0,
        limit,
        payload: Payload::new(bytes),
    };
    Step::UpperServes {
        ask: Ask::Command(take),
        is_answered: true,
    }
}

/// The lower picks.
fn picks(now: u64) -> Step {
    let pick = Command::Pick { hop: HopId(1), now };
    Step::LowerServes {
        ask: Ask::Command(pick),
        is_answered: true,
    }
}

/// Returns the turn of a sending core whose contact is open.
fn turn(moment: u64) -> Step {
    Step::Turns {
        is_open: true,
        moment,
    }
}

/// A packet arrives at the lower's first core.
fn heard(packet: usize) -> Step {
    Step::LowerHears {
        packet,
        core: 0,
        hop: HopId(1),
        stamp: 0,
    }
}

/// Returns a fault at the call of this number, and no other.
fn fault(at: u64) -> Fault {
    Fault {
        at,
        torn: 0,
        after: After::GoesOn,
    }
}

/// Returns the step of an act. Acts of several steps have none.
pub(crate) fn step_of<R: Abort>(rt: &R, alloc: Global, act: Act) -> Step {
    match act {
        Act::ComesIn(number, limit, length) => comes_in(rt, alloc, number, (limit, length)),
        Act::Turn(moment) => turn(moment),
        Act::PicksAhead(moment) => Step::PicksAhead { moment },
        Act::Timeout => Step::Timeout,
        Act::UpperMakes => Step::UpperMakes,
        Act::UpperAnswers => Step::UpperAnswers { is_sent: true },
        Act::UpperHears(packet) => Step::UpperHears { packet },
        Act::LowerHears(packet) => heard(packet),
        Act::LowerMakes => Step::LowerMakes,
        Act::LowerAnswers => Step::LowerAnswers { is_sent: true },
        Act::LowerPicks(moment) => picks(moment),
        Act::UpperCrashes(torn, at) => Step::UpperCrashes {
            torn,
            fault: fault(at),
        },
        Act::LowerCrashes(torn, at) => Step::LowerCrashes {
            torn,
            fault: fault(at),
        },
        Act::Calls(_, _) | Act::LowerTakes(_) => panic!(rt; "several steps"),
    }
}

/// The sending core makes this many requests at a time, each of which is made and gets its reply.
fn call<R: Abort>(rt: &R, alloc: Global, pair: &mut Pair, (moment, count): (u64, u64)) {
    for _call in 0..count {
        step(rt, alloc, pair, turn(moment));
        step(rt, alloc, pair, Step::UpperMakes);
        step(rt, alloc, pair, Step::UpperAnswers { is_sent: true });
    }
}

/// A packet arrives at the lower, whose Take is made and gets its reply.
fn take<R: Abort>(rt: &R, alloc: Global, pair: &mut Pair, packet: usize) {
    step(rt, alloc, pair, heard(packet));
    step(rt, alloc, pair, Step::LowerMakes);
    step(rt, alloc, pair, Step::LowerAnswers { is_sent: true });
}

/// Makes the act on a pair.
pub(crate) fn make<R: Abort>(rt: &R, alloc: Global, pair: &mut Pair, act: Act) {
    match act {
        Act::Calls(moment, count) => call(rt, alloc, pair, (moment, count)),
        Act::LowerTakes(packet) => take(rt, alloc, pair, packet),
        _ => step(rt, alloc, pair, step_of(rt, alloc, act)),
    }
}

/// Makes the acts of a stage in order.
pub(crate) fn make_all<R: Abort>(rt: &R, alloc: Global, pair: &mut Pair, acts: &[Act]) {
    for act in acts {
        make(rt, alloc, pair, *act);
    }
}

/// A pair runs these stages in order. After each stage the packets sent are exactly those of it and of the stages
/// before it.
fn go_through<R: Abort>(rt: &R, alloc: Global, pair: &mut Pair, script: &Script<'_>) {
    let mut sent = Vec::new(alloc);
    for stage in script.stages {
        make_all(rt, alloc, pair, stage.acts);
        sent.extend_from_slice(stage.sent).expect(rt, "memory");
        expect(rt, say(pair.packets(), &sent), script.shows);
    }
}

/// A pair of devices, the upper's and the lower's.
pub(crate) fn new_pair<R: Abort>(
    rt: &R,
    alloc: Global,
    upper: &Geometry,
    lower: &Geometry,
) -> Pair {
    Pair::new(alloc, upper, lower).ok().expect(rt, "a pair")
}

/// A new pair runs a script.
pub(crate) fn expect_script<R: Abort>(rt: &R, alloc: Global, script: &Script<'_>) {
    let mut pair = new_pair(rt, alloc, script.upper, script.lower);
    go_through(rt, alloc, &mut pair, script);
}

/// New pairs run these.
pub(crate) fn expect_scripts<R: Abort>(rt: &R, alloc: Global, scripts: &[Script<'_>]) {
    for script in scripts {
        expect_script(rt, alloc, script);
    }
}
