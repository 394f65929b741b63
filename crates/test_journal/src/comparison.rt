//! Comparison of a journal with the plain state machine: the same steps, and the same replies.
use crate::script::{HOP, Many, PEER, Step, ask_all, is_fetched, steps_of};
use rly_core::{Params, Refusal};
use rly_disk::Disk;
use rly_journal::Journal;
use rly_machine::{Answer, HopStatus, Machine, Payload, Reply};
use std::alloc::Global;
use std::process::Abort;

/// Applies a step to the plain machine, and returns its reply.
pub(crate) fn reply_of(
    rt: &impl Abort,
    alloc: Global,
    machine: &mut Machine<Payload>,
    step: Step,
) -> Reply {
    machine
        .evaluate(alloc, step.ask(rt, alloc))
        .expect(rt, "memory")
}

/// Applies these steps to the plain machine, with any replies.
pub(crate) fn make_all(
    rt: &impl Abort,
    alloc: Global,
    machine: &mut Machine<Payload>,
    steps: &[Step],
) {
    for step in steps {
        let _ = reply_of(rt, alloc, machine, *step);
    }
}

/// Returns a new plain machine after the steps of these rounds.
pub(crate) fn machine_of(
    rt: &impl Abort,
    alloc: Global,
    params: Params,
    rounds: &[&[Many]],
) -> Machine<Payload> {
    assert!(rt; params.check().is_ok());
    let mut machine = Machine::new(alloc, params).expect(rt, "memory");
    for round in rounds {
        make_all(rt, alloc, &mut machine, &steps_of(rt, alloc, round));
    }
    machine
}

/// Applies a step to the plain machine, and compares its reply and its position with an answer.
pub(crate) fn expect_answer(
    rt: &impl Abort,
    alloc: Global,
    machine: &mut Machine<Payload>,
    step: Step,
    answer: &Answer,
) {
    let reply = reply_of(rt, alloc, machine, step);
    let position = machine.seq();
    expect!(rt; is_same(&answer.reply, &reply) && answer.position == position, position);
}

/// Runs a round on both.
fn ask_both<D: Disk>(
    rt: &impl Abort,
    alloc: Global,
    journal: &mut Journal<D>,
    machine: &mut Machine<Payload>,
    steps: &[Step],
) {
    for (step, answer) in steps.iter().zip(&ask_all(rt, alloc, journal, steps)) {
        expect_answer(rt, alloc, machine, *step, answer);
    }
}

/// The content of a reply: its name and its numbers; the ids that it lists, those that expired first, and its bytes;
/// and all counters of a hop, or the refusal.
type Told<'a> = (
    (&'static str, u64, u64),
    (&'a [u64], &'a [u64], &'a [u8]),
    Option<Result<HopStatus, Refusal>>,
);

fn told(reply: &Reply) -> Told<'_> {
    match reply {
        Reply::Taken(id) => (("taken", *id, 0), (&[], &[], &[]), None),
        Reply::Already(last) => (("already", *last, 0), (&[], &[], &[]), None),
        Reply::Picked {
            number,
            id,
            expired,
            dropped,
        } => (
            ("picked", *number, *id),
            (expired.as_slice(), dropped.as_slice(), &[]),
            None,
        ),
        Reply::Nothing { expired } => (("nothing", 0, 0), (expired.as_slice(), &[], &[]), None),
        Reply::Released(count) => (("released", *count, 0), (&[], &[], &[]), None),
        Reply::Unchanged => (("unchanged", 0, 0), (&[], &[], &[]), None),
        Reply::Bytes { payload, limit } => {
            (("bytes", *limit, 0), (&[], &[], payload.as_slice()), None)
        }
        Reply::WindowIs { first, next } => (("window", *first, *next), (&[], &[], &[]), None),
        Reply::Shown(status) => (("shown", 0, 0), (&[], &[], &[]), Some(Ok(*status))),
        Reply::Refused(refusal) => (("refused", 0, 0), (&[], &[], &[]), Some(Err(*refusal))),
    }
}

/// Returns true iff two replies are the same.
pub(crate) fn is_same(one: &Reply, other: &Reply) -> bool {
    told(one) == told(other)
}

/// Returns the custody numbers in flight of a machine: the first, and the one after the last.
fn window_of(rt: &impl Abort, machine: &Machine<Payload>) -> (u64, u64) {
    match machine.ask_window(HOP) {
        Reply::WindowIs { first, next } => (first, next),
        _ => panic!(rt; "no window"),
    }
}

/// Returns the payload of a machine under a number.
fn payload_of(machine: &Machine<Payload>, number: u64) -> Result<&[u8], Refusal> {
    match machine.item(HOP, number) {
        Ok(item) => Ok(item.payload.as_slice()),
        Err(refusal) => Err(refusal),
    }
}

/// A position, the last number of the peer, and the reply to a Show.
type Numbers = (
    u64,
    Result<u64, Refusal>,
    Option<Result<HopStatus, Refusal>>,
);

/// Returns those of a journal.
fn numbers<D: Disk>(journal: &Journal<D>) -> Numbers {
    let (_, _, shown) = told(&journal.ask_show(HOP));
    (journal.position(), journal.last(PEER), shown)
}

/// Returns those of a machine.
pub(crate) fn numbers_of(machine: &Machine<Payload>) -> Numbers {
    let last = machine.lasts().first().copied().ok_or(Refusal::NoSuchPeer);
    let (_, _, shown) = told(&machine.ask_show(HOP));
    (machine.seq(), last, shown)
}

/// A journal has a machine's numbers and payloads in flight.
pub(crate) fn expect_numbers<D: Disk>(
    rt: &impl Abort,
    alloc: Global,
    journal: &mut Journal<D>,
    machine: &mut Machine<Payload>,
) {
    expect!(rt; numbers(journal) == numbers_of(machine));
    let (first, next) = window_of(rt, machine);
    let steps = [
        Step::Show,
        Step::Window,
        Step::Fetch(first),
        Step::Fetch(next),
    ];
    ask_both(rt, alloc, journal, machine, &steps);
    for number in 0..=next {
        expect!(rt; is_fetched(alloc, journal, number, payload_of(machine, number)), number);
    }
}

/// A journal has all of a machine's state: its numbers, the datagrams in flight, and those that wait, by picks at a
/// late time until none is left. Both continue from there.
pub(crate) fn expect_state<D: Disk>(
    rt: &impl Abort,
    alloc: Global,
    journal: &mut Journal<D>,
    machine: &mut Machine<Payload>,
) {
    expect_numbers(rt, alloc, journal, machine);
    for turn in 0..100 {
        if machine.item_count() == 0 {
            return;
        }
        let (first, _) = window_of(rt, machine);
        let pick = Step::Pick(1_000_000 + 60_000 * turn);
        let steps = [
            pick,
            Step::Show,
            Step::Fetch(first),
            Step::Release(first),
            Step::Show,
        ];
        ask_both(rt, alloc, journal, machine, &steps);
    }
    panic!(rt; "something is always left")
}

/// Returns true iff an answer is a refusal, at a position.
pub(crate) fn is_refused(answer: &Answer, refusal: Refusal, position: u64) -> bool {
    is_same(&answer.reply, &Reply::Refused(refusal)) && answer.position == position
}

/// Returns true iff all are.
pub(crate) fn are_refused(answers: &[Answer], refusal: Refusal, position: u64) -> bool {
    answers
        .iter()
        .all(|answer| is_refused(answer, refusal, position))
}

/// A journal is broken: every call is refused, at the position before the round in which it broke.
pub(crate) fn expect_broken<D: Disk>(
    rt: &impl Abort,
    alloc: Global,
    journal: &mut Journal<D>,
    steps: &[Step],
    position: u64,
) {
    let answers = ask_all(rt, alloc, journal, steps);
    expect!(rt; are_refused(&answers, Refusal::Broken, position));
    let broken = Refusal::Broken;
    expect!(rt; numbers(journal) == (position, Err(broken), Some(Err(broken))));
    expect!(rt; is_fetched(alloc, journal, 1, Err(broken)));
}
