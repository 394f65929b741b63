//! Rounds on devices, compared with the plain machine: the replies, and the device after them.
use crate::comparison::{
    are_refused, expect_answer, expect_broken, expect_numbers, expect_state, is_refused,
    machine_of, make_all,
};
use crate::device::{DEVICE_E, new_device, opened};
use crate::script::{Many, Step, ask_all, calls_of, round, steps_of};
use rly_core::{Geometry, Refusal};
use rly_disk::{After, Disk, FaultDisk, MemDisk, Torn};
use rly_journal::Journal;
use rly_machine::{Answer, Machine, Payload};
use std::alloc::Global;
use std::process::Abort;
use test_support::{before, was_refused};

/// The crash images of the bytes written since the last sync; the first is no crash.
pub(crate) const CRASHES: [Option<Torn>; 6] = [
    None,
    Some(Torn::AsRead),
    Some(Torn::AsSynced),
    Some(Torn::Fill(0xa5)),
    Some(Torn::Fill(0)),
    Some(Torn::Split(1)),
];

/// Returns a disk after a crash, if there is one.
pub(crate) fn left(disk: FaultDisk<MemDisk>, crash: Option<Torn>) -> MemDisk {
    match crash {
        Some(torn) => disk.into_inner().crash(torn),
        None => disk.into_inner(),
    }
}

/// A round of a journal.
#[derive(Clone, Copy)]
pub(crate) struct Round<'a> {
    pub(crate) geometry: &'a Geometry,
    /// The rounds before it.
    pub(crate) front: &'a [&'a [Many]],
    pub(crate) steps: &'a [Step],
    /// The indexes of the steps that may fail for want of memory: accepted ones with bytes or with ids to list, and a
    /// Fetch of bytes.
    pub(crate) wants: &'a [usize],
    /// True iff a segment is opened before it. If the allocation for that fails, all steps are refused.
    pub(crate) is_due: bool,
    /// The device call that fails, 0 for none.
    pub(crate) fails: u64,
}

/// Returns a journal after the rounds before it.
pub(crate) fn prepared(rt: &impl Abort, alloc: Global, row: &Round) -> Journal<FaultDisk<MemDisk>> {
    let disk = new_device(rt, alloc, row.geometry);
    let disk = FaultDisk::new(disk, row.fails, 0, After::GoesOn);
    let mut journal = opened(rt, alloc, disk);
    for round in row.front {
        let _ = ask_all(rt, alloc, &mut journal, &steps_of(rt, alloc, round));
    }
    journal
}

/// Applies the steps to the plain machine, except those that failed for want of memory, and compares its replies.
/// Returns the number that failed.
fn expect_answers(
    rt: &impl Abort,
    alloc: Global,
    machine: &mut Machine<Payload>,
    row: &Round,
    answers: &[Answer],
) -> usize {
    let mut starved = 0usize;
    for (index, (step, answer)) in row.steps.iter().zip(answers).enumerate() {
        if is_refused(answer, Refusal::OutOfMemory, machine.seq()) {
            expect!(rt; row.wants.contains(&index), index as u64);
            starved = starved.saturating_add(1);
        } else {
            expect_answer(rt, alloc, machine, *step, answer);
        }
    }
    starved
}

/// Runs the round, in which one allocation may fail, and compares the replies.
fn expect_round(
    rt: &impl Abort,
    alloc: Global,
    journal: &mut Journal<FaultDisk<MemDisk>>,
    machine: &mut Machine<Payload>,
    row: &Round,
) {
    let mut calls = calls_of(rt, alloc, row.steps);
    before(alloc).expect(rt, "memory");
    let answers = round(rt, alloc, journal, &mut calls);
    let refused = was_refused(alloc);
    if journal.is_broken() {
        expect!(rt; refused || row.fails > 0);
        expect_unsure(rt, alloc, journal, row.steps, (&answers, machine.seq()));
    } else {
        expect!(rt; row.fails == 0);
        expect_told(rt, alloc, machine, row, (&answers, refused));
        expect_numbers(rt, alloc, journal, machine);
    }
}

/// If the device fails, all replies are Unsure, and the journal is broken.
fn expect_unsure(
    rt: &impl Abort,
    alloc: Global,
    journal: &mut Journal<FaultDisk<MemDisk>>,
    steps: &[Step],
    (answers, position): (&[Answer], u64),
) {
    expect!(rt; answers.len() == steps.len());
    expect!(rt; are_refused(answers, Refusal::Unsure, position));
    expect_broken(rt, alloc, journal, steps, position);
}

/// Nothing is done if the allocation for the replies fails. Else one step may fail for want of memory, or all if a
/// segment is due. The machine makes the others.
fn expect_told(
    rt: &impl Abort,
    alloc: Global,
    machine: &mut Machine<Payload>,
    row: &Round,
    (answers, refused): (&[Answer], bool),
) {
    if are_refused(answers, Refusal::OutOfMemory, machine.seq()) {
        expect!(rt; refused && (row.is_due || answers.is_empty()));
    } else {
        let starved = expect_answers(rt, alloc, machine, row, answers);
        expect!(rt; starved <= if refused { 1 } else { 0 });
    }
}

/// Returns the device after the round. A call that was to fail was the last one, and the third sync: an opening makes
/// one, and the round two.
fn device_after(
    rt: &impl Abort,
    alloc: Global,
    machine: &mut Machine<Payload>,
    row: &Round,
) -> FaultDisk<MemDisk> {
    let mut journal = prepared(rt, alloc, row);
    expect_round(rt, alloc, &mut journal, machine, row);
    let broken = journal.is_broken();
    let disk = journal.into_disk();
    expect!(rt; broken == (disk.failures() > 0));
    let counts = (disk.calls(), disk.failures(), disk.syncs());
    expect!(rt; row.fails == 0 || counts == (row.fails, 1, 3));
    disk
}

/// The device after a crash recovers to the accepted commands. If it failed, the whole round may be recovered.
fn expect_left(
    rt: &impl Abort,
    alloc: Global,
    machine: &mut Machine<Payload>,
    row: &Round,
    crash: Option<Torn>,
) {
    let disk = device_after(rt, alloc, machine, row);
    let failed = disk.failures() > 0;
    let mut journal = opened(rt, alloc, left(disk, crash));
    if failed && journal.position() != machine.seq() {
        make_all(rt, alloc, machine, row.steps);
    }
    expect_state(rt, alloc, &mut journal, machine);
}

/// The same for each crash.
pub(crate) fn expect_rounds(rt: &impl Abort, alloc: Global, row: &Round) {
    for crash in &CRASHES {
        expect_left(
            rt,
            alloc,
            &mut machine_of(rt, alloc, row.geometry.params, row.front),
            row,
            *crash,
        );
    }
}

/// The first round of a new device, in which a datagram comes twice. An opening makes 7 calls; the round writes, syncs,
/// writes, and then its second sync fails.
const TWICE: Round<'static> = Round {
    geometry: &DEVICE_E,
    front: &[],
    steps: &[Step::Take(1, 0, 0, 1), Step::Take(1, 0, 0, 1)],
    wants: &[],
    is_due: false,
    fails: 7 + 4,
};

/// The same with three datagrams.
const THREE: Round<'static> = Round {
    steps: &[
        Step::Take(1, 0, 0, 1),
        Step::Take(2, 0, 0, 2),
        Step::Take(3, 0, 0, 3),
    ],
    ..TWICE
};

fn expect_failed_syncs(rt: &impl Abort, alloc: Global) {
    expect_rounds(rt, alloc, &TWICE);
    expect_rounds(rt, alloc, &THREE);
}

#[test]
fn rounds_whose_second_sync_fails(rt: HostRuntime) {
    expect_failed_syncs(&rt, rt.alloc());
}
