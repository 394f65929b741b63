ghost use Rattle.std.specs.Prelude.{◌≡◌, ◌+◌, ◌<◌, ◌≤◌, ◌^◌, MatchResult, Ok, length, true};
ghost use Rattle.rly_record.specs.Spelling.{HaveBody, body_of};
ghost use Rattle.rly_segment.specs.Heads.{segment_end};
ghost use Rattle.rly_journal.specs.HelpersJournal.{IsAtEnd, IsShaped};
ghost use Rattle.rly_journal.specs.HelpersReplay.{IsGivenUp, IsReadOn, IsReading, IsRecovered, IsTriedAgain};

use crate::open_fault::OpenFault;
use crate::placement::placed_at;
use crate::tail::Tail;
use rly_disk::Disk;
use rly_gate::{GroupFault, read_group};
use rly_journal_index::Index;
use rly_machine::{Command, Payload};
use rly_record::{DecodeFault, read_body, record_len};
use rly_segment::{
    HeadFault, HeaderFault, NewestFault, newest, read_header, read_placed_head, segment_end,
    segment_place,
};
use std::alloc::Global;

/// The bytes of a group before its body: the gate and the body's length.
const GROUP_START: u64 = 5;

/// The bytes of a group before its records: those before its body, and the count in 2.
const RECORDS: u64 = 7;

/// The recovered state of a device, and the end of its journal.
#[derive(Drop)]
pub(crate) struct Recovered {
    pub(crate) tail: Tail,
    pub(crate) index: Index,
}

/// Reads the recovered state: the newest head, and the groups after it up to the first closed gate. Reads no payload by
/// device address.
pub(crate) fn recover<D: Disk>(alloc: Global, disk: &mut D) -> Result<Recovered, OpenFault>
    ensures { MatchResult result (λ found. IsRecovered D.state found.tail found.index disk.old disk.new)
        (λ fault. IsGivenUp D.state fault disk.old disk.new) }
{
    let mut found = read_newest_head(alloc, disk)?;
    'groups: while replay_group(alloc, disk, &mut found)? {}
    Ok(found)
}

/// Reads the header and the newest head: the recovered state of a device without groups.
fn read_newest_head<D: Disk>(alloc: Global, disk: &mut D) -> Result<Recovered, OpenFault>
    ensures { MatchResult result (λ found. IsReading D.state found.tail found.index disk.old disk.new)
        (λ fault. IsGivenUp D.state fault disk.old disk.new) }
{
    let geometry = match read_header(disk) {
        Ok(geometry) => geometry,
        Err(HeaderFault::NotADevice) => return Err(OpenFault::NotADevice),
        Err(HeaderFault::BadGeometry) => return Err(OpenFault::BadGeometry),
        Err(HeaderFault::Device) => return Err(OpenFault::Device),
    };
    let newest = match newest(disk, &geometry) {
        Ok(newest) => newest,
        Err(NewestFault::Damaged(place)) => return Err(OpenFault::Damaged(place)),
        Err(NewestFault::Device) => return Err(OpenFault::Device),
    };
    let head = match read_placed_head(alloc, disk, &geometry, newest.segment) {
        Ok(head) => head,
        Err(HeadFault::OutOfMemory) => return Err(OpenFault::OutOfMemory),
        Err(HeadFault::Damaged) => return Err(OpenFault::Damaged(segment_place(
            &geometry,
            newest.segment,
        ))),
        Err(HeadFault::Device) => return Err(OpenFault::Device),
    };
    let closed = newest.closed;
    let tail = Tail {
        geometry,
        segment: newest.segment,
        generation: head.generation,
        gate: head.gate,
        closed,
    };
    Ok(Recovered {
        tail,
        index: Index::begin(geometry, newest.segment, head),
    })
}

/// Replays the commands of the next group, and returns whether there was one.
fn replay_group<D: Disk>(
    alloc: Global,
    disk: &mut D,
    found: &mut Recovered,
) -> Result<bool, OpenFault>
    requires shaped { IsShaped (D.state disk.old).size found.old.tail found.old.index }
    requires ends { IsAtEnd found.old.tail found.old.index }
    ensures read { (start : D) → IsReading D.state found.old.tail found.old.index start disk.old
        → IsReadOn D.state result found.new.tail found.new.index start disk.new }
    ensures progress { result ≡ Ok true → (found.old.tail.gate < found.new.tail.gate) × (found.new.tail.gate < 2 ^ 64) }
{
    found.index.law_index();
    let at = found.tail.gate;
    let end = segment_end(&found.tail.geometry, found.tail.segment);
    let body = match read_group(alloc, disk, at, end) {
        Ok(Some(body)) => body,
        Ok(None) => return Ok(false),
        Err(GroupFault::OutOfMemory) => return Err(OpenFault::OutOfMemory),
        Err(GroupFault::Damaged) => return Err(OpenFault::Damaged(at)),
        Err(GroupFault::Device) => return Err(OpenFault::Device),
    };
    let commands = match read_body(alloc, &body) {
        Ok(commands) => commands,
        Err(DecodeFault::OutOfMemory) => return Err(OpenFault::OutOfMemory),
        Err(DecodeFault::Malformed) => return Err(OpenFault::Damaged(at)),
    };
    let is_redone = redo(alloc, &mut found.index, at, commands)?;
    if !is_redone {
        return Err(OpenFault::Damaged(at));
    }
    found.tail.gate = at + GROUP_START + body.len() as u64;
    Ok(true)
}

/// Replays the commands of a group at a gate in order, and returns whether each was accepted. The index has their
/// payloads at the group's device addresses.
fn redo(
    alloc: Global,
    index: &mut Index,
    gate: u64,
    commands: Vec<Command<Payload>>,
) -> Result<bool, OpenFault>
    requires have { HaveBody commands.items }
    requires used { index.old.used ≡ gate }
    requires room { gate + 5 + length (body_of commands.items) ≤ segment_end index.old.geometry index.old.segment }
    ensures { IsTriedAgain result index.old gate commands.items index.new }
{
    index.law_index();
    let mut place = gate + RECORDS;
    for command in commands {
        index.law_index();
        let next = place + record_len(&command) as u64;
        let placed = placed_at(place, command);
        let Ok(room) = index.reserve_for(alloc, &placed) else {
            return Err(OpenFault::OutOfMemory);
        };
        if !index.apply(placed, room, next).is_accepted() {
            return Ok(false);
        }
        place = next;
    }
    Ok(true)
}
