ghost use Rattle.std.specs.Prelude.{◌≡◌, ◌≤◌, ◌<◌, ◌++◌, ◌∷◌, ℕ, List, length, drop, Some, Err, IfOk, IsOkUnless};
ghost use Rattle.std.specs.Prelude.{IsSome, MatchResult, OnErr};
ghost use Rattle.rly_core.specs.Bounds.{IsIn};
ghost use Rattle.rly_machine.specs.declared.command.Command.{Command};
ghost use Rattle.rly_record.specs.Spelling.{CarriesBytes, HasRecord, HaveBody, body_of, record_of};
ghost use Rattle.rly_record.specs.HelpersReader.{Gives, rest_after, command_at, command_bytes, in_front, limit_at};
ghost use Rattle.rly_record.specs.HelpersReader.{limited_take_at, many_at, field_at, payload_at, pick_at, release_at};
ghost use Rattle.rly_record.specs.HelpersReader.{take_at, whole_body};

use crate::decode_fault::DecodeFault;
use crate::kind::Kind;
use byteorder::{BigEndian, ByteOrder};
use rly_core::limits::{MAX_PAYLOAD, MAX_ROUND};
use rly_core::{HopId, PeerId};
use rly_machine::{Command, Payload};
use std::alloc::{AllocError, Global};

/// The size in bytes of the number in the record of a Take with a limit.
const NUMBER_LENGTH: usize = 6;

/// The size in bytes of its stamp.
const STAMP_LENGTH: usize = 7;

/// The size in bytes of its limit.
const LIMIT_LENGTH: usize = 5;

/// Decodes the record at the front of the bytes, and returns its command and its length; other bytes may follow it.
pub fn read_command(alloc: Global, bytes: &[u8]) -> Result<(Command<Payload>, usize), DecodeFault>
    ensures command { IfOk result (λ found. HasRecord found.0) }
    ensures found { IfOk result (λ found. bytes.now ≡ record_of found.0 ++ drop found.1 bytes.now) }
    ensures length { IfOk result (λ found. found.1 ≡ length (record_of found.0)) }

    // A record at the front is always decoded, unless an allocation fails: so Malformed means that there is none.
    ensures only { (command : Command (List ℕ)) (rest : List ℕ) → HasRecord command
        → bytes.now ≡ record_of command ++ rest →
        MatchResult result (λ found. found.0 ≡ command) (λ fault. fault ≡ DecodeFault.OutOfMemory) }

    // Only the bytes of an encoded payload need memory.
    ensures memory { result ≡ Err DecodeFault.OutOfMemory →
        (command : Command (List ℕ)) × (rest : List ℕ) × CarriesBytes command × HasRecord command
        × (bytes.now ≡ record_of command ++ rest) }
{
    let (command, rest) = command_of(bytes)?;
    let command = keep(alloc, command)?;
    Ok((command, bytes.len() - rest.len()))
}

/// Decodes a body, which has to be all of the bytes, and returns its commands.
pub fn read_body(alloc: Global, bytes: &[u8]) -> Result<Vec<Command<Payload>>, DecodeFault>
    ensures commands { IfOk result (λ commands. HaveBody commands.items) }
    ensures found { IfOk result (λ commands. bytes.now ≡ body_of commands.items) }

    // An encoded body is always decoded, unless an allocation fails: so Malformed means that there is none.
    ensures only { (commands : List (Command (List ℕ))) → HaveBody commands → bytes.now ≡ body_of commands →
        MatchResult result (λ found. found.items ≡ commands) (λ fault. fault ≡ DecodeFault.OutOfMemory) }

    // An allocation is made only if the bytes encode a body.
    ensures memory { result ≡ Err DecodeFault.OutOfMemory →
        (commands : List (Command (List ℕ))) × HaveBody commands × (bytes.now ≡ body_of commands) }
{
    body_of_bytes(alloc, bytes)
}

/// Reads a number of one byte, and returns it and the bytes after it.
fn u8_of(bytes: &[u8]) -> Result<(u8, &[u8]), DecodeFault>
    ensures gives { Gives (λ x. (x.0, x.1.now)) result (field_at 1 bytes.now) }
    ensures malformed { IsOkUnless result DecodeFault.Malformed }
{
    let [byte, rest @ ..] = bytes else {
        return Err(DecodeFault::Malformed);
    };
    Ok((*byte, rest))
}

/// Reads a number of `width` bytes, and returns it and the bytes after it.
fn uint_of(bytes: &[u8], width: usize) -> Result<(u64, &[u8]), DecodeFault>
    requires { IsIn 1 8 width }
    ensures gives { Gives (λ x. (x.0, x.1.now)) result (field_at width bytes.now) }
    ensures malformed { IsOkUnless result DecodeFault.Malformed }
{
    if bytes.len() < width {
        return Err(DecodeFault::Malformed);
    }
    Ok((BigEndian::read_uint(bytes, width), &bytes[width..]))
}

/// Reads a number of two bytes, and returns it and the bytes after it.
fn u16_of(bytes: &[u8]) -> Result<(u16, &[u8]), DecodeFault>
    ensures gives { Gives (λ x. (x.0, x.1.now)) result (field_at 2 bytes.now) }
    ensures malformed { IsOkUnless result DecodeFault.Malformed }
{
    if bytes.len() < 2 {
        return Err(DecodeFault::Malformed);
    }
    Ok((BigEndian::read_u16(bytes), &bytes[2..]))
}

/// Reads a number of eight bytes, and returns it and the bytes after it.
fn u64_of(bytes: &[u8]) -> Result<(u64, &[u8]), DecodeFault>
    ensures gives { Gives (λ x. (x.0, x.1.now)) result (field_at 8 bytes.now) }
    ensures malformed { IsOkUnless result DecodeFault.Malformed }
{
    if bytes.len() < 8 {
        return Err(DecodeFault::Malformed);
    }
    Ok((BigEndian::read_u64(bytes), &bytes[8..]))
}

/// Reads a payload after its length, and returns it and the bytes after it.
#[tactic(auto, unfolding(crate::specs::HelpersReader::payload_at))]
fn payload_of(bytes: &[u8]) -> Result<(&[u8], &[u8]), DecodeFault>
    ensures gives { Gives (λ x. (x.0.now, x.1.now)) result (payload_at bytes.now) }
    ensures malformed { IsOkUnless result DecodeFault.Malformed }
{
    let (size, rest) = u16_of(bytes)?;
    let length = usize::from(size);
    if u64::from(size) > MAX_PAYLOAD || rest.len() < length {
        return Err(DecodeFault::Malformed);
    }
    Ok(rest.split_at(length))
}

/// Reads a limit, which isn't 0, and returns it and the bytes after it.
#[tactic(auto, unfolding(crate::specs::HelpersReader::limit_at))]
fn limit_of(bytes: &[u8]) -> Result<(u64, &[u8]), DecodeFault>
    ensures gives { Gives (λ x. (x.0, x.1.now)) result (limit_at bytes.now) }
    ensures malformed { IsOkUnless result DecodeFault.Malformed }
{
    let (limit, rest) = uint_of(bytes, LIMIT_LENGTH)?;
    if limit == 0 {
        return Err(DecodeFault::Malformed);
    }
    Ok((limit, rest))
}

/// Reads the fields of a Take without a limit.
#[tactic(auto, unfolding(crate::specs::HelpersReader::take_at))]
fn take_of(bytes: &[u8]) -> Result<(Command<&[u8]>, &[u8]), DecodeFault>
    ensures gives { Gives (λ x. (command_bytes x.0, x.1.now)) result (take_at bytes.now) }
    ensures malformed { IsOkUnless result DecodeFault.Malformed }
{
    let (peer, rest) = u16_of(bytes)?;
    let (number, rest) = u64_of(rest)?;
    let (hop, rest) = u16_of(rest)?;
    let (stamp, rest) = u64_of(rest)?;
    let (payload, rest) = payload_of(rest)?;
    let command = Command::Take {
        peer: PeerId(peer),
        number,
        hop: HopId(hop),
        stamp,
        limit: 0,
        payload,
    };
    Ok((command, rest))
}

/// Reads the fields of a Take with a limit.
#[tactic(auto, unfolding(crate::specs::HelpersReader::limited_take_at))]
fn limited_take_of(bytes: &[u8]) -> Result<(Command<&[u8]>, &[u8]), DecodeFault>
    ensures gives { Gives (λ x. (command_bytes x.0, x.1.now)) result (limited_take_at bytes.now) }
    ensures malformed { IsOkUnless result DecodeFault.Malformed }
{
    let (peer, rest) = u8_of(bytes)?;
    let (number, rest) = uint_of(rest, NUMBER_LENGTH)?;
    let (hop, rest) = u8_of(rest)?;
    let (stamp, rest) = uint_of(rest, STAMP_LENGTH)?;
    let (limit, rest) = limit_of(rest)?;
    let (payload, rest) = payload_of(rest)?;
    let command = Command::Take {
        peer: PeerId(u16::from(peer)),
        number,
        hop: HopId(u16::from(hop)),
        stamp,
        limit,
        payload,
    };
    Ok((command, rest))
}

/// Reads the fields of a Pick.
#[tactic(auto, unfolding(crate::specs::HelpersReader::pick_at))]
fn pick_of(bytes: &[u8]) -> Result<(Command<&[u8]>, &[u8]), DecodeFault>
    ensures gives { Gives (λ x. (command_bytes x.0, x.1.now)) result (pick_at bytes.now) }
    ensures malformed { IsOkUnless result DecodeFault.Malformed }
{
    let (hop, rest) = u16_of(bytes)?;
    let (now, rest) = u64_of(rest)?;
    let hop = HopId(hop);
    Ok((Command::Pick { hop, now }, rest))
}

/// Reads the fields of a Release.
#[tactic(auto, unfolding(crate::specs::HelpersReader::release_at))]
fn release_of(bytes: &[u8]) -> Result<(Command<&[u8]>, &[u8]), DecodeFault>
    ensures gives { Gives (λ x. (command_bytes x.0, x.1.now)) result (release_at bytes.now) }
    ensures malformed { IsOkUnless result DecodeFault.Malformed }
{
    let (hop, rest) = u16_of(bytes)?;
    let (number, rest) = u64_of(rest)?;
    let hop = HopId(hop);
    Ok((Command::Release { hop, number }, rest))
}

/// Reads the record at the front with a borrowed payload, and returns it and the bytes after it.
#[tactic(auto, unfolding(crate::specs::HelpersReader::command_at))]
fn command_of(bytes: &[u8]) -> Result<(Command<&[u8]>, &[u8]), DecodeFault>
    ensures gives { Gives (λ x. (command_bytes x.0, x.1.now)) result (command_at bytes.now) }
    ensures malformed { IsOkUnless result DecodeFault.Malformed }
{
    let [kind, fields @ ..] = bytes else {
        return Err(DecodeFault::Malformed);
    };
    match Kind::from_byte(*kind).ok_or(DecodeFault::Malformed)? {
        Kind::Take => take_of(fields),
        Kind::Pick => pick_of(fields),
        Kind::Release => release_of(fields),
        Kind::LimitedTake => limited_take_of(fields),
    }
}

/// Returns the command with an owned payload.
fn keep(alloc: Global, command: Command<&[u8]>) -> Result<Command<Payload>, AllocError>
    ensures kept { IfOk result (λ kept. kept ≡ command_bytes command.entry) }
    ensures memory { OnErr result (CarriesBytes (command_bytes command.entry)) }
{
    Ok(match command {
        Command::Take {
            peer,
            number,
            hop,
            stamp,
            limit,
            payload,
        } => Command::Take {
            peer,
            number,
            hop,
            stamp,
            limit,
            payload: Payload::copy_of(alloc, payload)?,
        },
        Command::Pick { hop, now } => Command::Pick { hop, now },
        Command::Release { hop, number } => Command::Release { hop, number },
    })
}

/// Returns the bytes after `count` records.
fn behind_commands(count: u16, bytes: &[u8]) -> Result<&[u8], DecodeFault>
    ensures gives { Gives (λ rest. rest.now) result (rest_after (many_at command_at count bytes.now)) }
    ensures malformed { IsOkUnless result DecodeFault.Malformed }
{
    let mut rest = bytes;
    for _ in 0..count {
        let (_, after) = command_of(rest)?;
        rest = after;
    }
    Ok(rest)
}

/// Reads `count` consecutive records.
fn commands_of(
    alloc: Global,
    count: u16,
    bytes: &[u8],
) -> Result<Vec<Command<Payload>>, DecodeFault>
    ensures { Gives (λ commands. commands.items) result (in_front (many_at command_at count bytes.now)) }
{
    let mut commands = Vec::with_capacity(alloc, usize::from(count))?;
    let mut rest = bytes;
    for _ in 0..count {
        let (command, after) = command_of(rest)?;
        let command = keep(alloc, command)?;
        commands.push_reserved(command);
        rest = after;
    }
    Ok(commands)
}

/// Reads a body with no bytes after it. Allocates only after the bytes are known to be one.
#[tactic(auto, unfolding(crate::specs::HelpersReader::body_at, crate::specs::HelpersReader::whole_body))]
fn body_of_bytes(alloc: Global, bytes: &[u8]) -> Result<Vec<Command<Payload>>, DecodeFault>
    ensures gives { Gives (λ commands. commands.items) result (whole_body bytes.now) }
    ensures memory { result ≡ Err DecodeFault.OutOfMemory → IsSome (whole_body bytes.now) }
{
    let (count, rest) = u16_of(bytes)?;
    if count == 0 || u64::from(count) > MAX_ROUND {
        return Err(DecodeFault::Malformed);
    }
    if !behind_commands(count, rest)?.is_empty() {
        return Err(DecodeFault::Malformed);
    }
    commands_of(alloc, count, rest)
}
