//! The largest checkpoint, and a body of the maximum number of records: a limit in the code itself
//! would show here, as a failed allocation.
ghost use Rattle.std.specs.Prelude.{All, IsTrue};
ghost use Rattle.rly_record.specs.Spelling.{IsRecordable};

use rly_core::limits::{MAX_ITEMS, MAX_PAYLOAD};
use rly_core::{HopId, Params, PeerId};
use rly_machine::{Command, Machine, Payload, Reply};
use rly_record::{read_body, write_body};
use rly_segment_checkpoint::{HeadForm, checkpoint_len, read_checkpoint, write_checkpoint};
use std::alloc::Global;
use std::process::Abort;

/// Every hop, peer and queue place that the limits allow.
const LARGEST: Params = Params {
    hops: 64,
    peers: 64,
    window: 64,
    items: 16_384,
    bytes: 16_777_216,
    maxpacket: 65_535,
    target: 3_600_000_000,
    interval: 3_600_000_000,
    payload: 8_192,
};

/// The Take of a number at the last hop, from the last peer, of this many bytes.
fn take<R: Abort>(rt: &R, alloc: Global, number: u64, length: usize) -> Command<Payload> {
    Command::Take {
        peer: PeerId(64),
        number,
        hop: HopId(64),
        stamp: number,
        limit: 0,
        payload: Payload::new(vec![in alloc; 7u8; length].expect(rt, "memory")),
    }
}

/// The last hop takes the maximum number of datagrams from the last peer. The first one has the longest payload, and
/// each other 24 bytes.
fn fill<R: Abort>(rt: &R, alloc: Global, machine: &mut Machine<Payload>) {
    for before in 0..MAX_ITEMS {
        let length = if before == 0 { 8_192 } else { 24 };
        let command = take(rt, alloc, before + 1, length);
        let room = machine.reserve_for(alloc, &command).expect(rt, "memory");
        let reply = machine.apply(command, room);
        expect!(*rt; matches!(&reply, Reply::Taken(id) if *id == before + 1), before);
    }
}

/// Returns a spool's checkpoint. Reserves at most twice its length.
fn written<R: Abort>(rt: &R, alloc: Global, machine: &Machine<Payload>) -> Vec<u8> {
    let mut out = Vec::new(alloc);
    write_checkpoint(machine, &mut out).expect(rt, "memory");
    let is_small = out.capacity() / 2 <= out.len();
    expect!(*rt; is_small && out.len() as u64 == checkpoint_len(machine));
    out
}

/// Returns the checkpoint of the spool that is read from one.
fn rewritten<R: Abort>(rt: &R, alloc: Global, bytes: &[u8]) -> Vec<u8> {
    let machine = read_checkpoint(alloc, HeadForm::Second, LARGEST, bytes).expect(rt, "no fault");
    written(rt, alloc, &machine)
}

/// Its 750,064 bytes: 8, 8 for each peer, 64 for each hop, 21 for each datagram, and the payloads.
fn expect_checkpoint<R: Abort>(rt: &R, alloc: Global, machine: &mut Machine<Payload>) {
    fill(rt, alloc, machine);
    let first = written(rt, alloc, machine);
    let second = rewritten(rt, alloc, &first);
    expect!(*rt; first.len() == 750_064 && second.as_slice() == first.as_slice());
}

#[test]
fn the_largest_checkpoint_is_written_and_read(rt: HostRuntime) {
    let mut machine = Machine::new(rt.alloc(), LARGEST).expect(&rt, "memory");
    expect_checkpoint(&rt, rt.alloc(), &mut machine);
}

/// Returns true iff a command is a Take without a limit that has a record.
fn is_recordable(command: &Command<Payload>) -> bool
    ensures { IsTrue result → IsRecordable MAX_PAYLOAD command.now }
{
    match command {
        Command::Take { limit, payload, .. } => *limit == 0 && payload.as_slice().len() <= 8_192,
        Command::Pick { .. } | Command::Release { .. } => false,
    }
}

/// Returns true iff each is.
fn are_recordable(commands: &[Command<Payload>]) -> bool
    ensures { IsTrue result → All (IsRecordable MAX_PAYLOAD) commands.now }
{
    commands.iter().all(is_recordable)
}

/// Returns the body of commands.
fn body_of<R: Abort>(rt: &R, alloc: Global, commands: &[Command<Payload>]) -> Vec<u8> {
    assert!(rt; 0 < commands.len() && commands.len() <= 64 && are_recordable(commands));
    let mut body = Vec::new(alloc);
    write_body(commands, &mut body).expect(rt, "memory");
    body
}

/// 64 Takes of 1,200 bytes, with numbers past 2^40: 78,274 bytes, two of them before the records. They are read, and
/// written as before.
fn expect_body<R: Abort>(rt: &R, alloc: Global) {
    let mut commands = Vec::new(alloc);
    for index in 0..64u64 {
        commands
            .push(take(rt, alloc, 1_099_511_627_776 + index, 1_200))
            .ok()
            .expect(rt, "memory");
    }
    let body = body_of(rt, alloc, &commands);
    let again = body_of(rt, alloc, &read_body(alloc, &body).expect(rt, "no fault"));
    expect!(*rt; body.len() == 78_274 && body.starts_with(&[0, 64, 1, 0, 64, 0, 0, 1]));
    expect!(*rt; again.as_slice() == body.as_slice());
}

#[test]
fn a_body_of_64_records(rt: HostRuntime) {
    expect_body(&rt, rt.alloc());
}
