//! The requests to a journal of one hop and one peer.
use rly_core::{HopId, PeerId, Refusal};
use rly_disk::Disk;
use rly_journal::Journal;
use rly_machine::{Answer, Ask, Call, Command, Payload, Query, SeatId};
use std::alloc::Global;
use std::process::Abort;

/// The one hop.
pub(crate) const HOP: HopId = HopId(1);

/// The one peer.
pub(crate) const PEER: PeerId = PeerId(1);

/// A request for hop 1, from peer 1.
#[derive(Clone, Copy)]
pub(crate) enum Step {
    /// The datagram of this number arrives with this stamp and this limit, 0 for none, and this many bytes, each equal
    /// to its number.
    Take(u8, u64, u64, usize),
    /// A datagram is picked at a time.
    Pick(u64),
    /// All up to this number are released.
    Release(u64),
    /// The one under this number is fetched.
    Fetch(u64),
    Window,
    Show,
}

impl Step {
    /// Returns the request to a spool.
    pub(crate) fn ask(self, rt: &impl Abort, alloc: Global) -> Ask {
        match self {
            Step::Take(number, stamp, limit, length) => Ask::Command(Command::Take {
                peer: PEER,
                number: u64::from(number),
                hop: HOP,
                stamp,
                limit,
                payload: Payload::new(vec![in alloc; number; length].expect(rt, "memory")),
            }),
            Step::Pick(now) => Ask::Command(Command::Pick { hop: HOP, now }),
            Step::Release(number) => Ask::Command(Command::Release { hop: HOP, number }),
            Step::Fetch(number) => Ask::Query(Query::Fetch { hop: HOP, number }),
            Step::Window => Ask::Query(Query::Window { hop: HOP }),
            Step::Show => Ask::Query(Query::Show { hop: HOP }),
        }
    }

    /// Returns the same with a number higher by `more`.
    fn after(self, more: u8) -> Step {
        match self {
            Step::Take(number, stamp, limit, length) => {
                Step::Take(number.saturating_add(more), stamp, limit, length)
            }
            Step::Fetch(number) => Step::Fetch(number.saturating_add(u64::from(more))),
            _ => self,
        }
    }
}

/// A step, as often as this, each with the next number.
pub(crate) type Many = (Step, u8);

/// Returns the steps of a round.
pub(crate) fn steps_of(rt: &impl Abort, alloc: Global, round: &[Many]) -> Vec<Step> {
    let mut steps = Vec::new(alloc);
    for (step, count) in round {
        for index in 0..*count {
            steps.push(step.after(index)).expect(rt, "memory");
        }
    }
    steps
}

/// The seat of the requests.
const SEAT: SeatId = SeatId(255);

/// Returns a call for each step, numbered in order.
pub(crate) fn calls_of(rt: &impl Abort, alloc: Global, steps: &[Step]) -> Vec<Call> {
    let mut calls = Vec::new(alloc);
    for (index, step) in steps.iter().enumerate() {
        let call = Call {
            seat: SEAT,
            number: index as u64,
            ask: step.ask(rt, alloc),
        };
        calls.push(call).expect(rt, "memory");
    }
    calls
}

/// Runs 1 to 64 calls in a round. The replies are in order, each with its seat and number. If the allocation for them
/// fails there are none, and the calls are still there.
pub(crate) fn round<D: Disk>(
    rt: &impl Abort,
    alloc: Global,
    journal: &mut Journal<D>,
    calls: &mut Vec<Call>,
) -> Vec<Answer> {
    let mut answers = Vec::new(alloc);
    let count = calls.len();
    assert!(rt; 1 <= count && count <= 64);
    let done = journal.round(alloc, calls, &mut answers).is_ok();
    let left = if done { (0, count) } else { (count, 0) };
    expect!(rt; (calls.len(), answers.len()) == left);
    expect_numbered(rt, &answers);
    answers
}

/// Each reply has its seat and number.
fn expect_numbered(rt: &impl Abort, answers: &[Answer]) {
    for (index, answer) in answers.iter().enumerate() {
        expect!(rt; answer.seat == SEAT && answer.number == index as u64);
    }
}

/// Runs all steps in one round.
pub(crate) fn ask_all<D: Disk>(
    rt: &impl Abort,
    alloc: Global,
    journal: &mut Journal<D>,
    steps: &[Step],
) -> Vec<Answer> {
    let answers = round(rt, alloc, journal, &mut calls_of(rt, alloc, steps));
    expect!(rt; answers.len() == steps.len());
    answers
}

/// Returns true iff a journal returns these bytes for a number in flight, or this refusal.
pub(crate) fn is_fetched<D: Disk>(
    alloc: Global,
    journal: &mut Journal<D>,
    number: u64,
    wanted: Result<&[u8], Refusal>,
) -> bool {
    match (journal.fetch(alloc, HOP, number), wanted) {
        (Ok(found), Ok(bytes)) => found.as_slice() == bytes,
        (Err(told), Err(refusal)) => told == refusal,
        _ => false,
    }
}

/// An act on a journal, with its result.
#[derive(Clone, Copy)]
pub(crate) enum Act<'a> {
    /// A round, and the position of each reply.
    Round(&'a [Step], &'a [u64]),
    /// The datagram under this number is fetched, and has these bytes.
    Fetches(u64, &'a [u8]),
    /// A fetch that is refused.
    Refuses(u64, Refusal),
}

/// Runs a round, and compares the position of each reply. That of the last is the journal's.
fn expect_positions<D: Disk>(
    rt: &impl Abort,
    alloc: Global,
    journal: &mut Journal<D>,
    steps: &[Step],
    positions: &[u64],
) {
    let answers = ask_all(rt, alloc, journal, steps);
    expect_at(rt, &answers, positions);
    expect!(rt; positions.last().copied() == Some(journal.position()));
}

fn expect_at(rt: &impl Abort, answers: &[Answer], positions: &[u64]) {
    expect!(rt; answers.len() == positions.len());
    for (answer, position) in answers.iter().zip(positions) {
        expect!(rt; answer.position == *position, *position);
    }
}

/// Makes the act on a journal.
pub(crate) fn make<D: Disk>(rt: &impl Abort, alloc: Global, journal: &mut Journal<D>, act: Act) {
    match act {
        Act::Round(steps, positions) => expect_positions(rt, alloc, journal, steps, positions),
        Act::Fetches(number, bytes) => {
            expect!(rt; is_fetched(alloc, journal, number, Ok(bytes)), number)
        }
        Act::Refuses(number, refusal) => {
            expect!(rt; is_fetched(alloc, journal, number, Err(refusal)), number)
        }
    }
}
