//! Comparison of a journal with the plain machine: the same steps, and the same replies.
use crate::replies::Told;
use crate::script::{HOP, PEER, Step, ask_all};
use rly_core::Refusal;
use rly_disk::Disk;
use rly_journal::Journal;
use rly_machine::{Answer, Machine, Payload, Reply};
use std::alloc::Global;
use std::process::Abort;

/// Makes the steps on the plain machine.
pub(crate) fn make_all(
    rt: &impl Abort,
    alloc: Global,
    machine: &mut Machine<Payload>,
    steps: &[Step],
) {
    for step in steps {
        let _ = machine
            .evaluate(alloc, step.ask(rt, alloc))
            .expect(rt, "memory");
    }
}

/// Makes a step on the plain machine, and returns true iff an answer has its reply and its position.
fn is_answered(
    rt: &impl Abort,
    alloc: Global,
    machine: &mut Machine<Payload>,
    step: Step,
    answer: &Answer,
) -> bool {
    let reply = machine
        .evaluate(alloc, step.ask(rt, alloc))
        .expect(rt, "memory");
    Told::by(&answer.reply) == Told::by(&reply) && answer.position == machine.seq()
}

/// Returns true iff an answer has this refusal, at a position.
fn is_refused(answer: &Answer, refusal: Refusal, position: u64) -> bool {
    Told::by(&answer.reply) == Told::Refused(refusal) && answer.position == position
}

/// Returns true iff all have this refusal, at one position.
pub(crate) fn are_refused(answers: &[Answer], refusal: Refusal, position: u64) -> bool {
    answers
        .iter()
        .all(|answer| is_refused(answer, refusal, position))
}

/// Returns true iff the reply to a Fetch of bytes is a failed read.
fn is_unread(machine: &Machine<Payload>, step: Step, answer: &Answer) -> bool {
    match step {
        Step::Fetch(number) => {
            is_refused(answer, Refusal::DeviceRead, machine.seq())
                && machine.item(HOP, number).is_ok()
        }
        _ => false,
    }
}

/// Makes the steps on the plain machine, and compares each reply and position of a journal; the reply to a Fetch of
/// bytes may also be a failed read. Returns the number of these.
pub(crate) fn expect_replies(
    rt: &impl Abort,
    alloc: Global,
    machine: &mut Machine<Payload>,
    steps: &[Step],
    answers: &[Answer],
) -> u64 {
    let mut unread: u64 = 0;
    expect!(rt; answers.len() == steps.len());
    for (step, answer) in steps.iter().zip(answers) {
        if is_unread(machine, *step, answer) {
            unread = unread.saturating_add(1);
        } else {
            expect!(rt; is_answered(rt, alloc, machine, *step, answer), machine.seq());
        }
    }
    unread
}

/// Runs the steps in one round of a journal and on the plain machine.
fn ask_both<D: Disk>(
    rt: &impl Abort,
    alloc: Global,
    journal: &mut Journal<D>,
    machine: &mut Machine<Payload>,
    steps: &[Step],
) {
    let answers = ask_all(rt, alloc, journal, steps);
    expect!(rt; expect_replies(rt, alloc, machine, steps, &answers) == 0);
}

/// A journal has all of a machine's state: its numbers, the datagrams in flight, and those that wait, by picks at late
/// times until none is left. Both continue from there.
pub(crate) fn expect_state<D: Disk>(
    rt: &impl Abort,
    alloc: Global,
    journal: &mut Journal<D>,
    machine: &mut Machine<Payload>,
) {
    expect_numbers(rt, alloc, journal, machine);
    for turn in 0..8 {
        if machine.item_count() > 0 {
            let steps = late_steps(rt, alloc, machine, turn);
            ask_both(rt, alloc, journal, machine, &steps);
            expect_numbers(rt, alloc, journal, machine);
        }
    }
    expect!(rt; machine.item_count() == 0);
}

/// Returns the custody numbers in flight of a machine.
fn window_of(rt: &impl Abort, machine: &Machine<Payload>) -> (u64, u64) {
    match machine.ask_window(HOP) {
        Reply::WindowIs { first, next } => (first, next),
        _ => panic!(rt; "no window"),
    }
}

/// Releases all datagrams in flight of a machine, and picks 31 times at late times.
fn late_steps(rt: &impl Abort, alloc: Global, machine: &Machine<Payload>, turn: u64) -> Vec<Step> {
    let (_, next) = window_of(rt, machine);
    let mut steps = Vec::new(alloc);
    steps
        .push(Step::Release(next.saturating_sub(1)))
        .expect(rt, "memory");
    for pick in 0..31 {
        let now = 1_000_000 + 60_000 * (31 * turn.min(8) + pick);
        steps.push(Step::Pick(now)).expect(rt, "memory");
        steps.push(Step::Show).expect(rt, "memory");
    }
    steps
}

/// A journal has a machine's numbers and payloads in flight.
pub(crate) fn expect_numbers<D: Disk>(
    rt: &impl Abort,
    alloc: Global,
    journal: &mut Journal<D>,
    machine: &mut Machine<Payload>,
) {
    expect!(rt; has_numbers(journal, machine));
    let (first, next) = window_of(rt, machine);
    let steps = [
        Step::Show,
        Step::Window,
        Step::Fetch(first),
        Step::Fetch(next),
    ];
    ask_both(rt, alloc, journal, machine, &steps);
    for number in 0..=next {
        expect!(rt; is_fetched(alloc, journal, machine, number), number);
    }
}

/// Returns true iff a journal has a machine's position, the last number of the peer, and the counters of the hop.
fn has_numbers<D: Disk>(journal: &Journal<D>, machine: &Machine<Payload>) -> bool {
    journal.position() == machine.seq()
        && journal.last(PEER).ok().as_ref() == machine.lasts().first()
        && shows(journal, &machine.ask_show(HOP))
}

/// Returns true iff this is a journal's reply to a Show of the hop.
fn shows<D: Disk>(journal: &Journal<D>, reply: &Reply) -> bool {
    Told::by(&journal.ask_show(HOP)) == Told::by(reply)
}

/// Returns true iff a journal returns the machine's payload under a number, or the same refusal.
fn is_fetched<D: Disk>(
    alloc: Global,
    journal: &mut Journal<D>,
    machine: &Machine<Payload>,
    number: u64,
) -> bool {
    match (journal.fetch(alloc, HOP, number), machine.item(HOP, number)) {
        (Ok(bytes), Ok(item)) => bytes.as_slice() == item.payload.as_slice(),
        (Err(refusal), Err(other)) => refusal == other,
        _ => false,
    }
}

/// A journal is broken: every call is refused, at the position before the round in which it broke.
pub(crate) fn expect_broken<D: Disk>(
    rt: &impl Abort,
    alloc: Global,
    journal: &mut Journal<D>,
    steps: &[Step],
    position: u64,
) {
    let answers = ask_all(rt, alloc, journal, steps);
    expect!(rt; are_refused(&answers, Refusal::Broken, position));
    expect!(rt; journal.position() == position && is_broken(alloc, journal));
}

fn is_broken<D: Disk>(alloc: Global, journal: &mut Journal<D>) -> bool {
    journal.is_broken()
        && journal.last(PEER) == Err(Refusal::Broken)
        && journal.fetch(alloc, HOP, 1).err() == Some(Refusal::Broken)
        && shows(journal, &Reply::Refused(Refusal::Broken))
}
