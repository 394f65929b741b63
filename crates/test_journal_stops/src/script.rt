//! Scripts: requests to a spool of one hop and one peer, in rounds.
use rly_core::{Geometry, HopId, PeerId};
use rly_disk::Disk;
use rly_journal::Journal;
use rly_machine::{Answer, Ask, Call, Command, Payload, Query, SeatId};
use std::alloc::Global;
use std::process::Abort;

/// The one hop.
pub(crate) const HOP: HopId = HopId(1);

/// The one peer.
pub(crate) const PEER: PeerId = PeerId(1);

/// The seat of the requests.
const SEAT: SeatId = SeatId(3);

/// A request for hop 1, from peer 1.
#[derive(Clone, Copy)]
pub(crate) enum Step {
    /// The Take of a number, at a time, of a datagram with an age limit (0 for none) and a length, each byte equal to
    /// the number's lowest.
    Take(u64, u64, u64, usize),
    /// The Pick at a time.
    Pick(u64),
    Release(u64),
    Fetch(u64),
    Window,
    Show,
}

impl Step {
    /// Returns the request to a spool.
    pub(crate) fn ask(self, rt: &impl Abort, alloc: Global) -> Ask {
        match self {
            Step::Take(number, stamp, limit, length) => Ask::Command(Command::Take {
                peer: PEER,
                number,
                hop: HOP,
                stamp,
                limit,
                payload: payload_of(rt, alloc, number, length),
            }),
            Step::Pick(now) => Ask::Command(Command::Pick { hop: HOP, now }),
            Step::Release(number) => Ask::Command(Command::Release { hop: HOP, number }),
            Step::Fetch(number) => Ask::Query(Query::Fetch { hop: HOP, number }),
            Step::Window => Ask::Query(Query::Window { hop: HOP }),
            Step::Show => Ask::Query(Query::Show { hop: HOP }),
        }
    }

    /// Returns the same with a number higher by `more`.
    fn after(self, more: u64) -> Step {
        match self {
            Step::Take(number, stamp, limit, length) => {
                Step::Take(number.saturating_add(more), stamp, limit, length)
            }
            Step::Fetch(number) => Step::Fetch(number.saturating_add(more)),
            _ => self,
        }
    }
}

/// Returns a payload of this length, each byte equal to a number's lowest.
fn payload_of(rt: &impl Abort, alloc: Global, number: u64, length: usize) -> Payload {
    Payload::new(vec![in alloc; number.to_be_bytes()[7]; length].expect(rt, "memory"))
}

/// A round.
#[derive(Clone, Copy)]
pub(crate) enum Round {
    /// A step a number of times, each with the next number.
    Of(Step, u64),
    /// From one of the mixed steps on: their number, and the payload length.
    Mixed(u64, u64, usize),
    /// The held steps from a number on.
    Held(u64),
}

impl Round {
    fn len(self) -> u64 {
        match self {
            Round::Of(_step, count) => count,
            Round::Mixed(_first, count, _length) => count,
            Round::Held(_number) => 6,
        }
    }

    /// Returns a step of a round, counted from 0.
    fn step(self, index: u64) -> Step {
        match self {
            Round::Of(step, _count) => step.after(index),
            Round::Mixed(first, _count, length) => mixed(first.saturating_add(index), length),
            Round::Held(number) => held(number.saturating_add(index / 3), index % 3),
        }
    }
}

/// Mixed step number `index`. Three datagrams of each ten steps are taken, picked and released.
fn mixed(index: u64, length: usize) -> Step {
    let first = 3 * (index.min(1_000) / 10);
    let moment = 1_000 * index.min(1_000);
    match index % 10 {
        0 => Step::Take(first + 1, moment, 0, length),
        1 => Step::Take(first + 2, moment, 0, length),
        2 | 6 | 8 => Step::Pick(moment),
        3 => Step::Window,
        4 | 5 => Step::Take(first + 3, moment, 0, length),
        7 => Step::Release(first + 2),
        _ => Step::Take(first + 5, moment, 0, length),
    }
}

/// Steps that each take a datagram of 250 bytes, pick one that was taken seven before, and release one that was taken
/// 14 before: at least 14 are live after as many were taken, and lie in three segments.
fn held(number: u64, index: u64) -> Step {
    match index {
        0 => Step::Take(number, 0, 0, 250),
        1 if number > 7 => Step::Pick(0),
        1 => Step::Window,
        _ if number > 14 => Step::Release(number - 14),
        _ => Step::Show,
    }
}

/// Rounds on a device of a geometry. A round with a command has no Fetch.
#[derive(Clone, Copy)]
pub(crate) struct Script<'a> {
    pub(crate) geometry: Geometry,
    /// The device's bytes.
    pub(crate) image: &'a [u8],
    /// The rounds that the device recovers to, and those that follow.
    pub(crate) rounds: &'static [Round],
    /// The number that it recovers to: none if it is new.
    pub(crate) from: usize,
    /// The number at the end.
    pub(crate) to: usize,
}

impl Script<'_> {
    /// Returns the steps of a round, counted from 0; none after the last.
    pub(crate) fn round(&self, rt: &impl Abort, alloc: Global, index: usize) -> Vec<Step> {
        let mut steps = Vec::new(alloc);
        if let Some(round) = self.rounds.get(index) {
            for index in 0..round.len() {
                steps.push(round.step(index)).expect(rt, "memory");
            }
        }
        steps
    }
}

/// Returns a call for each step, numbered in order.
fn calls_of(rt: &impl Abort, alloc: Global, steps: &[Step]) -> Vec<Call> {
    let mut calls = Vec::new(alloc);
    for (index, step) in steps.iter().enumerate() {
        let call = Call {
            seat: SEAT,
            number: index as u64,
            ask: step.ask(rt, alloc),
        };
        calls.push(call).expect(rt, "memory");
    }
    calls
}

/// Returns true iff there are `count` answers, each with its seat and number.
fn are_numbered(answers: &[Answer], count: usize) -> bool {
    let mut are_numbered = answers.len() == count;
    for (index, answer) in answers.iter().enumerate() {
        are_numbered = are_numbered && answer.seat == SEAT && answer.number == index as u64;
    }
    are_numbered
}

/// Runs all steps in one round. The replies are in the order of the calls, each with its seat and number.
pub(crate) fn ask_all<D: Disk>(
    rt: &impl Abort,
    alloc: Global,
    journal: &mut Journal<D>,
    steps: &[Step],
) -> Vec<Answer> {
    let mut calls = calls_of(rt, alloc, steps);
    let mut answers = Vec::new(alloc);
    let count = calls.len();
    assert!(rt; 1 <= count && count <= 64);
    let told = journal.round(alloc, &mut calls, &mut answers);
    expect!(rt; told.is_ok() && calls.is_empty() && are_numbered(&answers, steps.len()));
    answers
}
