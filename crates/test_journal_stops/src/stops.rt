//! A script on a device that is stopped at each of its calls in turn, and then crashes, or
//! continues.
use crate::comparison::{expect_state, make_all};
use crate::device::{bytes_of, head_at, opened};
use crate::faults::{Ended, run, standing};
use crate::script::Script;
use rly_audit::audit;
use rly_disk::{After, Disk, FaultDisk, MemDisk, Torn};
use rly_machine::{Machine, Payload};
use std::alloc::Global;
use std::process::Abort;

/// A trial of a script.
#[derive(Clone, Copy)]
pub(crate) enum Trial {
    /// Without a failure it makes this many calls, its opening's among them, and this many syncs. Last is the
    /// generation of each segment at the end, 0 if its gate is closed.
    Costs(u64, u64, &'static [u8]),
    /// The same, and each of these calls fails, and none.
    Walked(u64, u64, &'static [u8]),
    /// After this many rounds a segment's head has this gate, generation and length field.
    Head(usize, u64, [u8; 13]),
    /// Each call in a range fails.
    Fails(u64, u64),
    /// In this many rounds each call from one to the last stops the device, and none does.
    Stops(usize, u64, u64),
}

/// The behaviour of a failing device: the number of bytes that a failing write writes, and the crash image of the bytes
/// written since the last sync, or `None` if the device continues.
type Way = (u64, Option<Torn>);

/// Each way: those of the first torn write, and then of the others.
static ALL: [Way; 18] = [
    (0, Some(Torn::AsRead)),
    (0, Some(Torn::AsSynced)),
    (0, Some(Torn::Fill(0xa5))),
    (0, Some(Torn::Fill(0))),
    (0, Some(Torn::Split(1))),
    (0, None),
    (1, Some(Torn::AsRead)),
    (1, Some(Torn::AsSynced)),
    (1, Some(Torn::Fill(0xa5))),
    (1, Some(Torn::Fill(0))),
    (1, Some(Torn::Split(1))),
    (1, None),
    (1_000, Some(Torn::AsRead)),
    (1_000, Some(Torn::AsSynced)),
    (1_000, Some(Torn::Fill(0xa5))),
    (1_000, Some(Torn::Fill(0))),
    (1_000, Some(Torn::Split(1))),
    (1_000, None),
];

/// It stops, and leaves the bytes that reads returned, or bytes `a5` in all that wasn't synced.
static STOPS: [Way; 2] = [(1, Some(Torn::AsRead)), (1, Some(Torn::Fill(0xa5)))];

/// Runs the trials of a script.
pub(crate) fn try_script(rt: &impl Abort, alloc: Global, script: Script, trial: Trial) {
    match trial {
        Trial::Costs(calls, syncs, generations) => {
            expect_costs(rt, alloc, script, (calls, syncs), generations)
        }
        Trial::Walked(calls, syncs, generations) => {
            expect_costs(rt, alloc, script, (calls, syncs), generations);
            fail_each(rt, alloc, script, (1, calls), &ALL);
            expect_last(rt, alloc, script, calls, &ALL);
        }
        Trial::Head(to, segment, head) => {
            let bytes = image_after(rt, alloc, Script { to, ..script });
            expect!(rt; head_at(rt, &bytes, &script.geometry, segment) == head, segment);
        }
        Trial::Fails(first, last) => fail_each(rt, alloc, script, (first, last), &ALL),
        Trial::Stops(to, first, last) => {
            fail_each(rt, alloc, Script { to, ..script }, (first, last), &STOPS);
            expect_last(rt, alloc, Script { to, ..script }, last, &STOPS);
        }
    }
}

/// Each of these device calls fails, all of which the script makes.
fn fail_each(
    rt: &impl Abort,
    alloc: Global,
    script: Script,
    (first, last): (u64, u64),
    ways: &'static [Way],
) {
    let mut left = [false; 2];
    for at in first..=last {
        let counted = fail_at(rt, alloc, script, at, ways, &mut left);
        expect!(rt; counted.failures > 0, at);
    }
    // a stopped round is recovered in some cases, and not in others
    expect!(rt; left == [true; 2]);
}

/// A script makes no device call after this one.
fn expect_last(rt: &impl Abort, alloc: Global, script: Script, last: u64, ways: &'static [Way]) {
    let counted = fail_at(
        rt,
        alloc,
        script,
        last.saturating_add(1),
        ways,
        &mut [false; 2],
    );
    expect!(rt; counted.failures == 0);
}

/// Returns the plain machine after the rounds that a device recovers to.
fn new_machine(rt: &impl Abort, alloc: Global, script: Script) -> Machine<Payload> {
    let params = script.geometry.params;
    assert!(rt; params.check().is_ok());
    let mut machine = Machine::new(alloc, params).expect(rt, "memory");
    for index in 0..script.from {
        make_all(rt, alloc, &mut machine, &script.round(rt, alloc, index));
    }
    machine
}

/// A device that may fail at a call.
type Device = FaultDisk<MemDisk>;

/// The counters of a device.
#[derive(Clone, Copy)]
struct Counted {
    calls: u64,
    syncs: u64,
    failures: u64,
    failed_reads: u64,
}

/// The counters of a device without calls.
const NOTHING: Counted = Counted {
    calls: 0,
    syncs: 0,
    failures: 0,
    failed_reads: 0,
};

fn counts_of(disk: &Device) -> Counted {
    Counted {
        calls: disk.calls(),
        syncs: disk.syncs(),
        failures: disk.failures(),
        failed_reads: disk.failed_reads(),
    }
}

/// Runs a script on its device, which fails at a call, and on a plain machine.
fn run_new(
    rt: &impl Abort,
    alloc: Global,
    script: Script,
    (at, torn, after): (u64, u64, After),
    machine: &mut Machine<Payload>,
) -> (Device, Ended) {
    let bytes = Vec::from_slice(alloc, script.image).expect(rt, "memory");
    let disk = FaultDisk::new(MemDisk::new(alloc, bytes), at, torn, after);
    let new = Ended {
        answered: script.from,
        unsure: false,
        again: false,
    };
    run(rt, alloc, disk, script, new, machine)
}

/// Returns the bytes of a script's device after a run without failures, and its counters.
fn left_by(rt: &impl Abort, alloc: Global, script: Script) -> (Vec<u8>, Counted) {
    let mut machine = new_machine(rt, alloc, script);
    let (disk, ended) = run_new(rt, alloc, script, (0, 0, After::Stops), &mut machine);
    expect!(rt; ended.answered == script.to);
    let counted = counts_of(&disk);
    let mut disk = disk;
    (bytes_of(rt, alloc, &mut disk), counted)
}

/// Returns the bytes of a script's device after a run that is compared with the plain machine.
pub(crate) fn image_after(rt: &impl Abort, alloc: Global, script: Script) -> Vec<u8> {
    left_by(rt, alloc, script).0
}

/// Compares the device calls of a script without a failure.
fn expect_costs(
    rt: &impl Abort,
    alloc: Global,
    script: Script,
    costs: (u64, u64),
    generations: &[u8],
) {
    let (bytes, counted) = left_by(rt, alloc, script);
    expect!(rt; counted.failures == 0 && (counted.calls, counted.syncs) == costs);
    let mut gate = 64;
    for generation in generations {
        expect!(rt; has_generation(&bytes, gate, *generation));
        gate = gate.saturating_add(script.geometry.length as usize);
    }
}

/// Returns true iff a gate is open, and its generation has this lowest byte; for 0, iff it is closed.
fn has_generation(bytes: &[u8], gate: usize, generation: u8) -> bool {
    let is_open = bytes.get(gate) == Some(&0xa5);
    is_open == (generation != 0)
        && (!is_open || bytes.get(gate.saturating_add(8)) == Some(&generation))
}

/// The device fails at a call of a script in each way, or, if that call is a read, in those of the first torn write: a
/// read writes nothing. Sets in `left` that a round without a reply was recovered, or that one wasn't. Returns the
/// device's counters.
fn fail_at(
    rt: &impl Abort,
    alloc: Global,
    script: Script,
    at: u64,
    ways: &'static [Way],
    left: &mut [bool; 2],
) -> Counted {
    let mut counted = NOTHING;
    for (index, way) in ways.iter().enumerate() {
        if index < 6 || (counted.failures > 0 && counted.failed_reads == 0) {
            let now = fail_once(rt, alloc, script, (at, *way), left);
            // in each way the same call fails
            expect!(rt; index == 0 || (now.failed_reads > 0) == (counted.failed_reads > 0), at);
            counted = now;
        }
    }
    counted
}

/// The same in one way.
fn fail_once(
    rt: &impl Abort,
    alloc: Global,
    script: Script,
    (at, (torn, kind)): (u64, Way),
    left: &mut [bool; 2],
) -> Counted {
    let mut machine = new_machine(rt, alloc, script);
    match kind {
        Some(kind) => stop(rt, alloc, script, (at, torn, kind), left, &mut machine),
        None => go_on(rt, alloc, script, (at, torn), &mut machine),
    }
}

/// Stops the script at a call, and crashes in one way.
fn stop(
    rt: &impl Abort,
    alloc: Global,
    script: Script,
    (at, torn, kind): (u64, u64, Torn),
    left: &mut [bool; 2],
    machine: &mut Machine<Payload>,
) -> Counted {
    let (disk, ended) = run_new(rt, alloc, script, (at, torn, After::Stops), machine);
    let counted = counts_of(&disk);
    expect!(rt; (counted.failures > 0) == (counted.calls >= at));
    expect!(rt; counted.failures > 0 || ended.answered == script.to);
    let stand = expect_crashed(rt, alloc, script, disk, kind, ended, machine);
    left[usize::from(stand > ended.answered)] = true;
    counted
}

/// The device fails at one call and is reopened, and the script continues from the recovered state to its end.
fn go_on(
    rt: &impl Abort,
    alloc: Global,
    script: Script,
    (at, torn): (u64, u64),
    machine: &mut Machine<Payload>,
) -> Counted {
    let (disk, ended) = run_new(rt, alloc, script, (at, torn, After::GoesOn), machine);
    let counted = counts_of(&disk);
    expect!(rt; counted.failures == u64::from(counted.calls >= at));
    // after a failed read the script continues by itself, except after one of the opening
    expect!(rt; ended.answered == script.to || counted.calls == at);
    if counted.failures > 0 {
        go_on_from(rt, alloc, script, disk, ended, machine);
    }
    counted
}

/// Opens the device after a run that ended, and continues to the end of the script.
fn go_on_from(
    rt: &impl Abort,
    alloc: Global,
    script: Script,
    disk: Device,
    ended: Ended,
    machine: &mut Machine<Payload>,
) {
    let (disk, ended) = run(rt, alloc, disk, script, ended, machine);
    expect!(rt; ended.answered == script.to && counts_of(&disk).failures == 1);
    let stand = expect_crashed(rt, alloc, script, disk, Torn::AsSynced, ended, machine);
    expect!(rt; stand == script.to);
}

/// Crashes the device of a run that ended; an audit reports that its counts add up; opens the device, and compares its
/// state with that of the recovered rounds. Returns their number.
fn expect_crashed(
    rt: &impl Abort,
    alloc: Global,
    script: Script,
    disk: Device,
    kind: Torn,
    ended: Ended,
    machine: &mut Machine<Payload>,
) -> usize {
    let mut report = Vec::new(alloc);
    let audited = audit(alloc, disk.into_inner().crash(kind), &mut report);
    expect!(rt; report.ends_with(b"\nbalance ok\n"));
    let mut journal = opened(rt, alloc, audited.ok().expect(rt, "a report"));
    let stand = standing(rt, alloc, journal.position(), script, ended, machine);
    expect_state(rt, alloc, &mut journal, machine);
    stand
}
