ghost use Rattle.std.specs.Prelude.{◌≡◌, ◌≤◌, ◌<◌, ◌+◌, ◌^◌, ◌++◌, ◌∷◌, ℕ, All, List, length, sum_by, IsOk, OnErr};
ghost use Rattle.std.specs.Prelude.{OnOk, vec_len};
ghost use Rattle.std.specs.Vec.{vec_capacity};
ghost use Rattle.byteorder.specs.Endian.{big_bytes};
ghost use Rattle.rly_core.specs.Bounds.{IsIn};
ghost use Rattle.rly_machine.specs.declared.command.Command.TheVariants.{Take};
ghost use Rattle.rly_record.specs.HelpersKinds.{record_kind_byte};
ghost use Rattle.rly_record.specs.Spelling.{FitsLimited, HasRecord, HaveBody, IsLimited, IsRecordable, body_length};
ghost use Rattle.rly_record.specs.Spelling.{body_of, record_length, record_of};

use crate::kind::Kind;
use byteorder::{BigEndian, ByteOrder};
use rly_core::limits::MAX_PAYLOAD;
use rly_core::{HopId, PeerId};
use rly_machine::{Command, Content, Payload};
use std::alloc::AllocError;

/// The size in bytes of a Take's record, without its payload.
const TAKE_LENGTH: usize = 23;

/// The size in bytes of the record of a Pick or a Release.
const SHORT_LENGTH: usize = 11;

/// The size in bytes of a body's count.
const COUNT_LENGTH: usize = 2;

/// Returns the size in bytes of a command's record, over any payload that has a length.
pub fn record_len<C: Content>(command: &Command<C>) -> usize
    requires { record_length C.length_of command.now < 2 ^ 64 }
    ensures { result ≡ record_length C.length_of command.now }
{
    match command {
        Command::Take { payload, .. } => TAKE_LENGTH + payload.len(),
        Command::Pick { .. } | Command::Release { .. } => SHORT_LENGTH,
    }
}

/// Appends the record of a command to `out`. Allocates only if `out` lacks the capacity; an `Err` leaves the bytes of
/// `out` unchanged.
pub fn write_command(command: &Command<Payload>, out: &mut Vec<u8>) -> Result<(), AllocError>
    requires { IsRecordable MAX_PAYLOAD command.now }
    ensures command { OnOk result (HasRecord command.now) }
    ensures written { OnOk result (out.new.items ≡ out.old.items ++ record_of command.now) }
    ensures err { OnErr result (out.new.items ≡ out.old.items) }
    ensures reserved { vec_len out.old + record_length length command.now ≤ vec_capacity out.old → IsOk result }
    ensures capacity { vec_capacity out.old ≤ vec_capacity out.new }
{
    out.reserve(record_len(command))?;
    append_record(command, out);
    Ok(())
}

/// Appends the body of 1 to 64 commands to `out`. Allocates only if `out` lacks the capacity; an `Err` leaves the bytes
/// of `out` unchanged.
pub fn write_body(commands: &[Command<Payload>], out: &mut Vec<u8>) -> Result<(), AllocError>
    requires count { IsIn 1 64 (length commands.now) }
    requires recordable { All (IsRecordable MAX_PAYLOAD) commands.now }
    ensures commands { OnOk result (HaveBody commands.now) }
    ensures written { OnOk result (out.new.items ≡ out.old.items ++ body_of commands.now) }
    ensures err { OnErr result (out.new.items ≡ out.old.items) }
    ensures reserved { vec_len out.old + body_length length commands.now ≤ vec_capacity out.old → IsOk result }
    ensures capacity { vec_capacity out.old ≤ vec_capacity out.new }
{
    out.reserve(body_len(commands))?;
    append_body(commands, out);
    Ok(())
}

/// Returns the size in bytes of the commands' body.
fn body_len(commands: &[Command<Payload>]) -> usize
    requires count { length commands.now ≤ 64 }
    requires recordable { All (IsRecordable MAX_PAYLOAD) commands.now }
    ensures { result ≡ body_length length commands.now }
{
    let mut total = COUNT_LENGTH;
    for command in commands {
        total += record_len(command);
    }
    total
}

/// Appends a body, with the capacity already reserved.
fn append_body(commands: &[Command<Payload>], out: &mut Vec<u8>)
    requires count { IsIn 1 64 (length commands.now) }
    requires recordable { All (IsRecordable MAX_PAYLOAD) commands.now }
    requires room { vec_len out.old + body_length length commands.now ≤ vec_capacity out.old }
    ensures commands { HaveBody commands.now }
    ensures items { out.new.items ≡ out.old.items ++ body_of commands.now }
    ensures capacity { vec_capacity out.old ≤ vec_capacity out.new }
{
    let mut count = [0; COUNT_LENGTH];
    BigEndian::write_u16(&mut count, commands.len() as u16);
    append(&count, out);
    for command in commands {
        append_record(command, out);
    }
}

/// Appends a record, with the capacity already reserved.
#[tactic(auto, unfolding(crate::specs::Spelling::record_of))]
fn append_record(command: &Command<Payload>, out: &mut Vec<u8>)
    requires recordable { IsRecordable MAX_PAYLOAD command.now }
    requires room { vec_len out.old + record_length length command.now ≤ vec_capacity out.old }
    ensures command { HasRecord command.now }
    ensures items { out.new.items ≡ out.old.items ++ record_of command.now }
    ensures len { vec_len out.new ≡ vec_len out.old + record_length length command.now }
    ensures capacity { vec_capacity out.old ≤ vec_capacity out.new }
{
    match command {
        Command::Take {
            peer,
            number,
            hop,
            stamp,
            limit,
            payload,
        } => {
            let payload = payload.as_slice();
            let size = payload.len() as u16;
            append(&take_front(*peer, *number, *hop, *stamp, *limit, size), out);
            append(payload, out);
        }
        Command::Pick { hop, now } => append(&short_record(Kind::Pick, *hop, *now), out),
        Command::Release { hop, number } => {
            append(&short_record(Kind::Release, *hop, *number), out)
        }
    }
}

/// Appends bytes, with the capacity already reserved.
fn append(bytes: &[u8], out: &mut Vec<u8>)
    requires { vec_len out.old + length bytes.now ≤ vec_capacity out.old }
    ensures items { out.new.items ≡ out.old.items ++ bytes.now }
    ensures len { vec_len out.new ≡ vec_len out.old + length bytes.now }
    ensures capacity { vec_capacity out.old ≤ vec_capacity out.new }
{
    out.extend_from_slice(bytes).unwrap();
}

/// Returns the record of a Take before its payload of `size` bytes.
fn take_front(
    peer: PeerId,
    number: u64,
    hop: HopId,
    stamp: u64,
    limit: u64,
    size: u16,
) -> [u8; TAKE_LENGTH]
    requires { 0 < limit → IsLimited peer number hop stamp limit }
    ensures record { (payload : List ℕ) → length payload ≡ size →
        result ++ payload ≡ record_of (Take peer number hop stamp limit payload) }
    ensures fits { (peer.0 < 2 ^ 16) × (number < 2 ^ 64) × (hop.0 < 2 ^ 16) × (stamp < 2 ^ 64)
        × (0 < limit → FitsLimited peer number hop stamp limit) }
{
    if limit == 0 {
        return take_fields(peer, number, hop, stamp, size);
    }
    limited_fields(peer, number, hop, stamp, limit, size)
}

/// Returns the record of a Take without a limit before its payload of `size` bytes.
fn take_fields(peer: PeerId, number: u64, hop: HopId, stamp: u64, size: u16) -> [u8; TAKE_LENGTH]
    ensures fields { result
        ≡ 1 ∷ big_bytes 2 peer.0 ++ big_bytes 8 number ++ big_bytes 2 hop.0 ++ big_bytes 8 stamp ++ big_bytes 2 size }
    ensures fits { (peer.0 < 2 ^ 16) × (number < 2 ^ 64) × (hop.0 < 2 ^ 16) × (stamp < 2 ^ 64) }
{
    let mut fields = [0; TAKE_LENGTH];
    fields[0] = Kind::Take.byte();
    BigEndian::write_u16(&mut fields[1..], peer.0);
    BigEndian::write_u64(&mut fields[3..], number);
    BigEndian::write_u16(&mut fields[11..], hop.0);
    BigEndian::write_u64(&mut fields[13..], stamp);
    BigEndian::write_u16(&mut fields[21..], size);
    fields
}

/// Returns the record of a Take with a limit before its payload of `size` bytes.
fn limited_fields(
    peer: PeerId,
    number: u64,
    hop: HopId,
    stamp: u64,
    limit: u64,
    size: u16,
) -> [u8; TAKE_LENGTH]
    requires { IsLimited peer number hop stamp limit }
    ensures { result
        ≡ 5 ∷ big_bytes 1 peer.0 ++ big_bytes 6 number ++ big_bytes 1 hop.0 ++ big_bytes 7 stamp ++ big_bytes 5 limit
        ++ big_bytes 2 size }
{
    let mut fields = [0; TAKE_LENGTH];
    fields[0] = Kind::LimitedTake.byte();
    fields[1] = peer.0 as u8;
    BigEndian::write_uint(&mut fields[2..], number, 6);
    fields[8] = hop.0 as u8;
    BigEndian::write_uint(&mut fields[9..], stamp, 7);
    BigEndian::write_uint(&mut fields[16..], limit, 5);
    BigEndian::write_u16(&mut fields[21..], size);
    fields
}

/// Returns the record of a Pick or a Release: a hop and a number.
fn short_record(kind: Kind, hop: HopId, number: u64) -> [u8; SHORT_LENGTH]
    ensures fields { result ≡ record_kind_byte kind ∷ big_bytes 2 hop.0 ++ big_bytes 8 number }
    ensures fits { (hop.0 < 2 ^ 16) × (number < 2 ^ 64) }
{
    let mut fields = [0; SHORT_LENGTH];
    fields[0] = kind.byte();
    BigEndian::write_u16(&mut fields[1..], hop.0);
    BigEndian::write_u64(&mut fields[3..], number);
    fields
}
