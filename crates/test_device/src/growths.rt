//! Records and bodies with one allocation that fails (`bench/scarce_memory`). A failed write leaves
//! the destination unchanged.

ghost use Rattle.std.specs.Prelude.{◌≤◌};
ghost use Rattle.rly_record.specs.Spelling.{IsRecordable};

use rly_core::limits::MAX_PAYLOAD;
use rly_core::{HopId, PeerId};
use rly_machine::{Command, Payload};
use rly_record::{DecodeFault, read_body, read_command, write_body, write_command};
use std::alloc::Global;
use std::process::Abort;
use test_support::{before, was_refused};

/// The record of `take 1 1 1 0 41`.
const TAKE: [u8; 24] = [
    0x01, 0x00, 0x01, 0, 0, 0, 0, 0, 0, 0, 1, 0x00, 0x01, 0, 0, 0, 0, 0, 0, 0, 0, 0x00, 0x01, 0x41,
];

/// The body of that Take and a Release of hop 1 up to 3.
const BODY: [u8; 37] = [
    0x00, 0x02, 0x01, 0x00, 0x01, 0, 0, 0, 0, 0, 0, 0, 1, 0x00, 0x01, 0, 0, 0, 0, 0, 0, 0, 0, 0x00,
    0x01, 0x41, 0x03, 0x00, 0x01, 0, 0, 0, 0, 0, 0, 0, 0x03,
];

fn take<R: Abort>(rt: &R, alloc: Global) -> Command<Payload>
    ensures { IsRecordable MAX_PAYLOAD result }
{
    Command::Take {
        peer: PeerId(1),
        number: 1,
        hop: HopId(1),
        stamp: 0,
        limit: 0,
        payload: Payload::new(vec![in alloc; 0x41u8; 1].expect(rt, "memory")),
    }
}

/// The written bytes are whole, or, if an allocation failed, none.
fn expect_written<R: Abort>(rt: &R, is_written: bool, refused: bool, out: &[u8], whole: &[u8]) {
    expect!(rt; refused || is_written);
    expect!(rt; out == if is_written { whole } else { &[] });
}

/// Returns true iff a command takes the one byte.
fn is_the_take(command: Option<&Command<Payload>>) -> bool {
    match command {
        Some(Command::Take { payload, .. }) => payload.as_slice() == [0x41].as_slice(),
        _ => false,
    }
}

/// Writes a record of a command, and reads it.
fn expect_record<R: Abort>(rt: &R, alloc: Global) {
    let mut out = Vec::new(alloc);
    let command = take(rt, alloc);
    before(alloc).expect(rt, "memory");
    let is_written = write_command(&command, &mut out).is_ok();
    expect_written(rt, is_written, was_refused(alloc), &out, &TAKE);
    before(alloc).expect(rt, "memory");
    let told = read_command(alloc, &TAKE);
    let refused = was_refused(alloc);
    match told {
        Ok((command, length)) => expect!(rt; length == 24 && is_the_take(Some(&command))),
        Err(fault) => expect!(rt; refused && fault == DecodeFault::OutOfMemory),
    }
}

/// Writes a body of two commands, and reads it.
fn expect_body<R: Abort>(rt: &R, alloc: Global) {
    let mut out = Vec::new(alloc);
    let release = Command::Release {
        hop: HopId(1),
        number: 3,
    };
    let commands = [take(rt, alloc), release];
    before(alloc).expect(rt, "memory");
    let is_written = write_body(&commands, &mut out).is_ok();
    expect_written(rt, is_written, was_refused(alloc), &out, &BODY);
    before(alloc).expect(rt, "memory");
    let told = read_body(alloc, &BODY);
    let refused = was_refused(alloc);
    match told {
        Ok(commands) => expect!(rt; commands.len() == 2 && is_the_take(commands.first())),
        Err(fault) => expect!(rt; refused && fault == DecodeFault::OutOfMemory),
    }
}

fn expect_both<R: Abort>(rt: &R, alloc: Global) {
    expect_record(rt, alloc);
    expect_body(rt, alloc);
}

#[test]
fn a_record_and_a_body(rt: HostRuntime) {
    expect_both(&rt, rt.alloc());
}
