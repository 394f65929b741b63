ghost use Rattle.std.specs.Prelude.{◌≡◌, ◌+◌, ◌<◌, ◌^◌, length, true};
ghost use Rattle.rly_segment_checkpoint.specs.declared.stored.Stored.TheVariants.{Inline};
ghost use Rattle.rly_machine.specs.Map.{map_command};
ghost use Rattle.rly_record.specs.Spelling.{IsLimited, IsRecordable, IsShort};
ghost use Rattle.rly_journal.specs.GroupAddresses.{stored_at, placed_at};

use rly_core::limits::{AGE_LIMIT, MAX_HOPS, MAX_PAYLOAD, MAX_PEERS, MAX_SEQ, MOMENT_LIMIT};
use rly_core::{HopId, PeerId};
use rly_machine::{Command, Content, Payload};
use rly_segment_checkpoint::{DeviceAddress, Stored};

/// The bytes of a Take's record before its payload.
const TAKE_FIELDS: u64 = 23;

/// Returns true iff a command can be recorded, as each can that a spool with payloads of at most `most` bytes accepts.
pub fn is_recordable(command: &Command<Payload>, most: u64) -> bool
    ensures yes { result ≡ true → IsRecordable most command.now }
    ensures no { IsRecordable most command.now → result ≡ true }
{
    match command {
        Command::Take {
            peer,
            number,
            hop,
            stamp,
            limit,
            payload,
        } => {
            payload.len() as u64 <= most
                && (*limit == 0 || is_limited(*peer, *number, *hop, *stamp, *limit))
        }
        Command::Pick { .. } | Command::Release { .. } => true,
    }
}

/// Returns true iff the numbers of a Take with a limit are within a spool's limits.
fn is_limited(peer: PeerId, number: u64, hop: HopId, stamp: u64, limit: u64) -> bool
    ensures yes { result ≡ true → IsLimited peer number hop stamp limit }
    ensures no { IsLimited peer number hop stamp limit → result ≡ true }
{
    let peer = u64::from(peer.0);
    let hop = u64::from(hop.0);
    (1 <= peer && peer <= MAX_PEERS)
        && (1 <= hop && hop <= MAX_HOPS)
        && number <= MAX_SEQ
        && stamp < MOMENT_LIMIT
        && limit < AGE_LIMIT
}

/// Returns a command whose record lies at an offset, with its payload by device address. Drops the bytes.
pub fn placed_at(place: u64, command: Command<Payload>) -> Command<Stored>
    requires short { IsShort MAX_PAYLOAD command }
    requires fits { place + TAKE_FIELDS < 2 ^ 64 }
    ensures { result ≡ placed_at place command }
{
    match command {
        Command::Take {
            peer,
            number,
            hop,
            stamp,
            limit,
            payload,
        } => Command::Take {
            peer,
            number,
            hop,
            stamp,
            limit,
            payload: stored_at(place + TAKE_FIELDS, payload),
        },
        Command::Pick { hop, now } => Command::Pick { hop, now },
        Command::Release { hop, number } => Command::Release { hop, number },
    }
}

/// Returns the device address of a payload at an offset, if it has bytes.
fn stored_at(start: u64, payload: Payload) -> Stored
    requires { length payload < 2 ^ 16 }
    ensures { result ≡ stored_at start payload }
{
    if payload.len() == 0 {
        return Stored::Inline(payload);
    }
    Stored::Placed(DeviceAddress {
        start,
        length: payload.len() as u16,
    })
}

/// Returns the same command with its payload inline: for one that can't be recorded, which the machine refuses.
pub fn inline_command(command: Command<Payload>) -> Command<Stored>
    ensures { result ≡ map_command Inline command }
{
    match command {
        Command::Take {
            peer,
            number,
            hop,
            stamp,
            limit,
            payload,
        } => Command::Take {
            peer,
            number,
            hop,
            stamp,
            limit,
            payload: Stored::Inline(payload),
        },
        Command::Pick { hop, now } => Command::Pick { hop, now },
        Command::Release { hop, number } => Command::Release { hop, number },
    }
}
