//! Runs of a script on a device that fails at a chosen call.
use crate::comparison::{are_refused, expect_broken, expect_numbers, expect_replies, make_all};
use crate::script::{Script, Step, ask_all};
use rly_core::Refusal;
use rly_disk::Disk;
use rly_journal::{Journal, OpenFault};
use rly_machine::{Answer, Machine, Payload};
use std::alloc::Global;
use std::process::Abort;

/// The end of a run.
#[derive(Clone, Copy)]
pub(crate) struct Ended {
    /// The number of rounds of the script with replies.
    pub(crate) answered: usize,
    /// True iff the next one may be durable without a reply: a write or a sync failed in it.
    pub(crate) unsure: bool,
    /// True iff the device was opened before.
    pub(crate) again: bool,
}

/// Opens the device of a previous run, or of a script, and runs the rounds that aren't durable yet, until the device
/// fails for good or the script ends. The plain machine makes the same steps. Returns the device.
pub(crate) fn run<D: Disk>(
    rt: &impl Abort,
    alloc: Global,
    disk: D,
    script: Script,
    ended: Ended,
    machine: &mut Machine<Payload>,
) -> (D, Ended) {
    let (failures, failed_reads) = (disk.failures(), disk.failed_reads());
    match Journal::open(alloc, disk) {
        Ok(journal) => {
            let mut journal = journal;
            let (ended, unread) = ask_rounds(rt, alloc, &mut journal, script, ended, machine);
            let disk = journal.into_disk();
            expect!(rt; disk.failed_reads() == failed_reads.saturating_add(unread));
            (disk, ended)
        }
        Err((fault, disk)) => {
            expect!(rt; fault == OpenFault::Device && disk.failures() > failures);
            let again = true;
            (disk, Ended { again, ..ended })
        }
    }
}

/// Runs the rounds that aren't durable yet. Returns the number of replies that report a failed read, too.
fn ask_rounds<D: Disk>(
    rt: &impl Abort,
    alloc: Global,
    journal: &mut Journal<D>,
    script: Script,
    ended: Ended,
    machine: &mut Machine<Payload>,
) -> (Ended, u64) {
    let mut answered = standing(rt, alloc, journal.position(), script, ended, machine);
    if ended.again {
        expect_numbers(rt, alloc, journal, machine);
    }
    let mut told: u64 = 0;
    for index in answered..script.to {
        let steps = script.round(rt, alloc, index);
        let (first, again) = ask_twice(rt, alloc, journal, machine, &steps);
        told = told.saturating_add(first).saturating_add(again);
        if again > 0 || journal.is_broken() {
            break;
        }
        answered = index.saturating_add(1);
    }
    let ended = Ended {
        answered,
        unsure: journal.is_broken(),
        again: true,
    };
    (ended, told)
}

/// Runs a round, and again if reads failed in it. Returns the number of failed reads, each time.
fn ask_twice<D: Disk>(
    rt: &impl Abort,
    alloc: Global,
    journal: &mut Journal<D>,
    machine: &mut Machine<Payload>,
    steps: &[Step],
) -> (u64, u64) {
    match ask_round(rt, alloc, journal, machine, steps) {
        0 => (0, 0),
        first => (first, ask_round(rt, alloc, journal, machine, steps)),
    }
}

/// Runs a round, and compares the replies with the plain machine's. After a failed write or sync, every call is
/// refused. After failed reads nothing changed: returns their number.
fn ask_round<D: Disk>(
    rt: &impl Abort,
    alloc: Global,
    journal: &mut Journal<D>,
    machine: &mut Machine<Payload>,
    steps: &[Step],
) -> u64 {
    let position = machine.seq();
    let answers = ask_all(rt, alloc, journal, steps);
    if journal.is_broken() {
        expect!(rt; are_refused(&answers, Refusal::Unsure, position));
        expect_broken(rt, alloc, journal, steps, position);
        0
    } else {
        let unread = expect_read(rt, alloc, machine, steps, &answers);
        expect!(rt; journal.position() == machine.seq());
        unread
    }
}

/// The replies are the plain machine's, or those of a round with failed reads. Returns their number.
fn expect_read(
    rt: &impl Abort,
    alloc: Global,
    machine: &mut Machine<Payload>,
    steps: &[Step],
    answers: &[Answer],
) -> u64 {
    let has_fetch = steps.iter().any(|step| matches!(step, Step::Fetch(_)));
    if !has_fetch && are_refused(answers, Refusal::DeviceRead, machine.seq()) {
        // a read of the victim failed
        1
    } else {
        expect_replies(rt, alloc, machine, steps, answers)
    }
}

/// Returns the number of rounds that a journal at a position has recovered: those with replies, and if the next one is
/// unsure, possibly that too. The plain machine makes the same steps.
pub(crate) fn standing(
    rt: &impl Abort,
    alloc: Global,
    position: u64,
    script: Script,
    ended: Ended,
    machine: &mut Machine<Payload>,
) -> usize {
    if position == machine.seq() {
        return ended.answered;
    }
    // else a reply was lost
    expect!(rt; ended.unsure);
    make_all(rt, alloc, machine, &script.round(rt, alloc, ended.answered));
    // else a part of a round was recovered
    expect!(rt; position == machine.seq());
    ended.answered.saturating_add(1)
}
