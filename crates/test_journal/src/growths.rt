//! Each call that allocates, with one allocation that fails (`bench/scarce_memory`): it returns
//! the error, and keeps its contract; or it succeeds, since a list whose growth fails may grow by
//! less. If no allocation failed, no reply reports one. A call that failed succeeds when it is
//! retried.
use crate::comparison::{expect_state, is_same, machine_of, make_all, numbers_of, reply_of};
use crate::device::{DEVICE_E, THREE, are, bytes_of, expect_format, new_device, opened, zeroed};
use crate::rounds::{CRASHES, Round, expect_rounds, left, prepared};
use crate::script::{HOP, Many, Step, steps_of};
use rly_core::Refusal;
use rly_disk::{Disk, FaultDisk, MemDisk, Torn};
use rly_journal::{Group, Journal, OpenFault};
use rly_machine::{Machine, Payload, Reply};
use rly_segment::{FormatFault, format};
use rly_segment_checkpoint::{
    DecodeFault, HeadForm, checkpoint_len, read_checkpoint, write_checkpoint,
};
use std::alloc::Global;
use std::process::Abort;
use test_support::{before, was_refused};

/// The state before the round: three datagrams were taken, the last of them with a limit, two of them picked, and one
/// of these released. One round asks for all, so no segment is due.
const FRONT: [Many; 5] = [
    (Step::Take(1, 0, 0, 1_200), 1),
    (Step::Take(2, 100, 0, 1_200), 1),
    (Step::Take(3, 200, 250, 1_200), 1),
    (Step::Pick(300), 2),
    (Step::Release(1), 1),
];

/// It takes a datagram that fills the segment: the offset is above 4,628.
const FILLING: [Many; 1] = [(Step::Take(4, 300, 0, 1_200), 1)];

/// A round of every kind of request, some of which allocate nothing. Its first Pick finds the one with a limit expired.
const ROUND: [Step; 9] = [
    Step::Take(4, 400, 0, 700),
    Step::Window,
    Step::Fetch(2),
    Step::Release(2),
    Step::Pick(500),
    Step::Fetch(9),
    Step::Take(9, 400, 0, 1),
    Step::Pick(u64::MAX),
    Step::Show,
];

/// The round if no segment is due.
const PLAIN: Round<'static> = Round {
    geometry: &DEVICE_E,
    front: &[&FRONT],
    steps: &ROUND,
    wants: &[0, 2, 4],
    is_due: false,
    fails: 0,
};

/// The round if one is. Its first datagram was taken before.
const DUE: Round<'static> = Round {
    front: &[&FRONT, &FILLING],
    wants: &[2, 4],
    is_due: true,
    ..PLAIN
};

/// The rounds of two worked cycles (`tests/test_segments.py`), and the takes of the third.
const CYCLES: [&[Many]; 8] = [
    &[(Step::Take(1, 0, 0, 1_200), 32)],
    &[(Step::Pick(0), 32)],
    &[(Step::Fetch(1), 32)],
    &[(Step::Take(33, 0, 0, 1_200), 32)],
    &[(Step::Pick(0), 32)],
    &[(Step::Fetch(1), 64)],
    &[(Step::Release(32), 1)],
    &[(Step::Take(65, 0, 0, 1_200), 32)],
];

/// A round before which the third segment is opened: the payloads of 32 datagrams are moved into its head.
const MOVING: Round<'static> = Round {
    geometry: &THREE,
    front: &CYCLES,
    steps: &[
        Step::Release(33),
        Step::Take(97, 0, 0, 1_200),
        Step::Pick(0),
        Step::Fetch(65),
    ],
    wants: &[1, 2, 3],
    is_due: true,
    fails: 0,
};

/// Returns true iff the refusal of a format is one for want of memory: before any call, or by a call of the disk in
/// memory.
fn is_refused(rt: &impl Abort, alloc: Global, disk: &mut MemDisk, fault: FormatFault) -> bool {
    match fault {
        FormatFault::OutOfMemory => disk.calls() == 0 && are(&bytes_of(rt, alloc, disk), 0),
        _ => fault == FormatFault::Device && disk.failures() == 1,
    }
}

/// Formats a disk of zeros. If that was refused, the retry succeeds.
fn expect_tried(rt: &impl Abort, alloc: Global, disk: &mut MemDisk) {
    before(alloc).expect(rt, "memory");
    let told = format(alloc, disk, &DEVICE_E);
    let refused = was_refused(alloc);
    if let Err(fault) = told {
        expect!(rt; refused && is_refused(rt, alloc, disk, fault));
        expect_format(rt, alloc, disk);
    }
}

/// The disk then reads as a formatted device.
fn expect_formatting(rt: &impl Abort, alloc: Global) {
    let wanted = bytes_of(rt, alloc, &mut new_device(rt, alloc, &DEVICE_E));
    let mut disk = zeroed(rt, alloc);
    expect_tried(rt, alloc, &mut disk);
    expect!(rt; bytes_of(rt, alloc, &mut disk).as_slice() == wanted.as_slice());
}

#[test]
fn formatting(rt: HostRuntime) {
    expect_formatting(&rt, rt.alloc());
}

/// Opens a device, which fails only if an allocation did, and returns it.
fn handed_back(rt: &impl Abort, alloc: Global, disk: FaultDisk<MemDisk>) -> FaultDisk<MemDisk> {
    before(alloc).expect(rt, "memory");
    let told = Journal::open(alloc, disk);
    let refused = was_refused(alloc);
    expect!(rt; refused || told.is_ok());
    match told {
        Ok(journal) => journal.into_disk(),
        Err((fault, disk)) => {
            let failed = disk.failures() > 0;
            expect!(rt; fault == if failed { OpenFault::Device } else { OpenFault::OutOfMemory });
            disk
        }
    }
}

/// A refused device is returned unchanged, with no write pending: a crash leaves the same bytes.
fn crashed(rt: &impl Abort, alloc: Global, crash: Option<Torn>) -> MemDisk {
    let mut disk = prepared(rt, alloc, &DUE).into_disk();
    let bytes = bytes_of(rt, alloc, &mut disk);
    let mut disk = left(handed_back(rt, alloc, disk), crash);
    expect!(rt; bytes_of(rt, alloc, &mut disk).as_slice() == bytes.as_slice());
    disk
}

/// The device opens to the state of the plain machine. A segment is due on it.
fn expect_opening(
    rt: &impl Abort,
    alloc: Global,
    machine: &mut Machine<Payload>,
    crash: Option<Torn>,
) {
    let mut journal = opened(rt, alloc, crashed(rt, alloc, crash));
    expect_state(rt, alloc, &mut journal, machine);
}

/// The same for each crash.
fn expect_openings(rt: &impl Abort, alloc: Global) {
    for crash in &CRASHES {
        let mut machine = machine_of(rt, alloc, DEVICE_E.params, DUE.front);
        expect_opening(rt, alloc, &mut machine, *crash);
    }
}

#[test]
fn opening(rt: HostRuntime) {
    expect_openings(&rt, rt.alloc());
}

#[test]
fn a_round(rt: HostRuntime) {
    expect_rounds(&rt, rt.alloc(), &PLAIN);
}

#[test]
fn a_round_that_opens_a_segment(rt: HostRuntime) {
    expect_rounds(&rt, rt.alloc(), &DUE);
}

#[test]
fn a_round_that_opens_one_of_three_segments(rt: HostRuntime) {
    expect_rounds(&rt, rt.alloc(), &MOVING);
}

/// A group for payloads of 8,192 bytes, whose frame is reserved.
#[test]
fn a_new_group(rt: HostRuntime) {
    before(rt.alloc()).expect(&rt, "memory");
    let is_made = Group::new(rt.alloc(), 8_192).is_ok();
    expect!(rt; was_refused(rt.alloc()) != is_made);
}

/// A payload is fetched, or its allocation failed.
fn expect_fetched(rt: &impl Abort, alloc: Global, journal: &mut Journal<FaultDisk<MemDisk>>) {
    before(alloc).expect(rt, "memory");
    let told = journal.fetch(alloc, HOP, 2);
    let refused = was_refused(alloc);
    match told {
        Ok(bytes) => expect!(rt; bytes.len() == 1_200 && are(&bytes, 2)),
        Err(refusal) => expect!(rt; refused && refusal == Refusal::OutOfMemory),
    }
}

/// The same, and the journal's state after it.
fn expect_fetch(rt: &impl Abort, alloc: Global) {
    let mut machine = machine_of(rt, alloc, DEVICE_E.params, PLAIN.front);
    let mut journal = prepared(rt, alloc, &PLAIN);
    expect_fetched(rt, alloc, &mut journal);
    expect_state(rt, alloc, &mut journal, &mut machine);
}

#[test]
fn a_fetch(rt: HostRuntime) {
    expect_fetch(&rt, rt.alloc());
}

/// Makes a new machine.
fn new_machine(rt: &impl Abort, alloc: Global) -> Machine<Payload> {
    before(alloc).expect(rt, "memory");
    let told = Machine::new(alloc, DEVICE_E.params);
    let refused = was_refused(alloc);
    expect!(rt; refused || told.is_ok());
    match told {
        Ok(machine) => machine,
        Err(_) => machine_of(rt, alloc, DEVICE_E.params, &[]),
    }
}

/// The reply to a step is that of a machine without failed allocations. A refused step leaves the machine unchanged,
/// and succeeds when it is retried.
fn expect_step(
    rt: &impl Abort,
    alloc: Global,
    machine: &mut Machine<Payload>,
    step: Step,
    wanted: &Reply,
) {
    let seq = machine.seq();
    let ask = step.ask(rt, alloc);
    before(alloc).expect(rt, "memory");
    let told = machine.evaluate(alloc, ask);
    let refused = was_refused(alloc);
    match told {
        Ok(reply) => expect!(rt; is_same(&reply, wanted), seq),
        Err(_) => {
            expect!(rt; refused && machine.seq() == seq, seq);
            expect!(rt; is_same(&reply_of(rt, alloc, machine, step), wanted), seq);
        }
    }
}

/// The same for several steps, with the numbers of expired and dropped datagrams after them.
fn expect_steps(
    rt: &impl Abort,
    alloc: Global,
    (machine, same): (&mut Machine<Payload>, &mut Machine<Payload>),
    steps: &[Step],
    gone: (u64, u64),
) {
    for step in steps {
        expect_step(rt, alloc, machine, *step, &reply_of(rt, alloc, same, *step));
    }
    let (_, _, shown) = numbers_of(machine);
    expect!(rt; matches!(shown, Some(Ok(status)) if (status.expired, status.dropped) == gone));
}

/// A new machine makes the first steps, and then the others.
fn expect_machine(
    rt: &impl Abort,
    alloc: Global,
    front: &[Many],
    steps: &[Step],
    gone: (u64, u64),
) {
    let mut machine = new_machine(rt, alloc);
    make_all(rt, alloc, &mut machine, &steps_of(rt, alloc, front));
    let mut same = machine_of(rt, alloc, DEVICE_E.params, &[front]);
    expect_steps(rt, alloc, (&mut machine, &mut same), steps, gone);
}

/// Five datagrams, the second of them with a limit, and a Pick that arms CoDel. An interval later the second has
/// expired, and the third is dropped: the Pick's memory has a list for each.
fn expect_machines(rt: &impl Abort, alloc: Global) {
    let armed = [
        (Step::Take(1, 0, 0, 1_200), 1),
        (Step::Take(2, 100, 20_000, 100), 1),
        (Step::Take(3, 200, 0, 1_100), 1),
        (Step::Take(4, 200, 0, 1_000), 1),
        (Step::Take(5, 200, 0, 600), 1),
        (Step::Pick(10_000), 1),
    ];
    expect_machine(rt, alloc, &armed, &[Step::Pick(120_000)], (1, 1));
    expect_machine(rt, alloc, &FRONT, &ROUND, (1, 0));
}

#[test]
fn steps_of_a_machine(rt: HostRuntime) {
    expect_machines(&rt, rt.alloc());
}

/// Returns the bytes of a machine. If the first write was refused, it wrote nothing.
fn written(rt: &impl Abort, alloc: Global, machine: &Machine<Payload>) -> Vec<u8> {
    let mut out = Vec::new(alloc);
    before(alloc).expect(rt, "memory");
    let done = write_checkpoint(machine, &mut out).is_ok();
    let refused = was_refused(alloc);
    expect!(rt; refused || done);
    if !done {
        expect!(rt; out.is_empty());
        write_checkpoint(machine, &mut out).expect(rt, "memory");
    }
    expect!(rt; out.len() as u64 == checkpoint_len(machine));
    out
}

/// Returns the machine of a head's body.
fn read_once(alloc: Global, body: &[u8]) -> Result<Machine<Payload>, DecodeFault> {
    read_checkpoint(alloc, HeadForm::Second, DEVICE_E.params, body)
}

/// Returns the machine that is read, with a retry.
fn read(rt: &impl Abort, alloc: Global, body: &[u8]) -> Machine<Payload> {
    before(alloc).expect(rt, "memory");
    let told = read_once(alloc, body);
    let refused = was_refused(alloc);
    match told {
        Ok(machine) => machine,
        Err(fault) => {
            expect!(rt; refused && fault == DecodeFault::OutOfMemory);
            read_once(alloc, body).expect(rt, "memory")
        }
    }
}

/// A machine that is written and read is the same.
fn expect_same(rt: &impl Abort, alloc: Global, machine: &Machine<Payload>) {
    let again = read(rt, alloc, &written(rt, alloc, machine));
    expect!(rt; numbers_of(&again) == numbers_of(machine));
}

fn expect_checkpoint(rt: &impl Abort, alloc: Global) {
    expect_same(
        rt,
        alloc,
        &machine_of(rt, alloc, DEVICE_E.params, PLAIN.front),
    );
}

#[test]
fn a_checkpoint(rt: HostRuntime) {
    expect_checkpoint(&rt, rt.alloc());
}
