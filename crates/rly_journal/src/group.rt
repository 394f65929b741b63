ghost use Rattle.std.specs.Prelude.{◌≡◌, ◌+◌, ◌*◌, ◌<◌, ◌≤◌, ◌^◌, [], ◌++◌, ◌==◌, IfOk, drop, is_ok, length, take};
ghost use Rattle.std.specs.Prelude.{vec_capacity, vec_len};
ghost use Rattle.byteorder.specs.Endian.{big_bytes};
ghost use Rattle.rly_disk.specs.Trace.{Makes};
ghost use Rattle.rly_gate.specs.Calls.{append_calls};
ghost use Rattle.rly_gate.specs.Group.{body_in};
ghost use Rattle.rly_record.specs.Spelling.{HasRecord, IsRecordable, record_of};
ghost use Rattle.rly_journal.specs.Groups.{empty_group, frame_room, group_body, record_place};
ghost use Rattle.rly_journal.specs.GroupAddresses.{placed_at};

use crate::placement::placed_at;
use byteorder::{BigEndian, ByteOrder};
use rly_core::limits::MAX_PAYLOAD;
use rly_disk::{Disk, DiskFault};
use rly_gate::append_group;
use rly_machine::{Command, Payload};
use rly_reclaim::group_room;
use rly_record::write_command;
use rly_segment_checkpoint::Stored;
use std::alloc::{AllocError, Global};
use std::marker::Model;

/// The offset of the body, after the length.
const BODY: usize = 4;

/// The offset of the records: after the length, and the count in 2 bytes.
const RECORDS: usize = 6;

/// The group of a round, in the frame that is written. Its memory is reserved once, for the largest group by the
/// maximum payload length.
#[derive(Drop)]
pub struct Group {
    frame: Vec<u8>,
    kept: usize,
    count: u16,
    most: u64,
}

impl Model for Group {
    ghost use Rattle.std.specs.Prelude.{◌+◌, ◌*◌, ◌≤◌, drop, length, take, vec_capacity};
    ghost use Rattle.rly_record.specs.Spelling.{longest_record};
    ghost use Rattle.rly_journal.specs.Groups.{GroupState, frame_room};

    ghost Value = { GroupState };

    ghost view = { λ g.
        record {
          records = drop 6
              (take g.kept g.frame.items);
          count = g.count;
          staged = drop g.kept g.frame.items;
          most = g.most;
        } };

    ghost invariant = { λ g. (6 ≤ g.kept) × (g.kept ≤ length g.frame.items)
        × (g.kept ≤ 6 + longest_record g.most * g.count)
        × (length g.frame.items ≤ g.kept + longest_record g.most) × (g.count ≤ 64)
        × (frame_room g.most ≤ vec_capacity g.frame) × (g.most ≤ 8192) };
}

impl Group {
    /// Makes an empty group, with the memory for the largest one with payloads of at most `payload` bytes.
    pub fn new(alloc: Global, payload: u64) -> Result<Group, AllocError>
        requires { payload ≤ MAX_PAYLOAD }
        ensures { IfOk result (λ group. group ≡ empty_group payload) }
    {
        let mut frame = Vec::with_capacity(alloc, group_room(payload) as usize - 1)?;
        frame.extend_from_slice(&[0; RECORDS])?;
        Ok(Group {
            frame,
            kept: RECORDS,
            count: 0,
            most: payload,
        })
    }

    /// Returns true iff it has no record.
    pub fn is_empty(&self) -> bool
        ensures { result ≡ (self.now.count == 0) }
    {
        self.count == 0
    }

    /// Returns the bytes that it takes after its gate, and that gate: its length in 4 bytes, and its body.
    pub fn len(&self) -> u64
        ensures { result ≡ 5 + length (group_body self.now) }
    {
        self.kept as u64 + 1
    }

    /// Removes all records.
    fn clear(&mut self)
        ensures { self.new ≡ empty_group self.old.most }
    {
        self.frame.truncate(RECORDS);
        self.kept = RECORDS;
        self.count = 0;
    }

    /// Stages the record of a command: it may become part of the group. Returns the command with its payload's device
    /// address after the group is written at the gate.
    pub fn stage(&mut self, gate: u64, command: Command<Payload>) -> Command<Stored>
        requires room { self.old.count < 64 }
        requires nothing { self.old.staged ≡ [] }
        requires recordable { IsRecordable self.old.most command }
        requires gate { gate + frame_room self.old.most < 2 ^ 64 }
        ensures staged { self.new ≡ record self.old { staged = record_of command } }
        ensures has { HasRecord command }
        ensures placed { result ≡ placed_at (record_place gate self.old) command }
    {
        let place = gate + 1 + self.kept as u64;
        write_command(&command, &mut self.frame).unwrap();
        placed_at(place, command)
    }

    /// Makes the staged record part of the group.
    pub fn keep(&mut self)
        requires room { self.old.count < 64 }
        ensures { self.new
            ≡ record self.old {
              records = self.old.records
                  ++ self.old.staged;
              count = self.old.count + 1;
              staged = [];
            } }
    {
        self.kept = self.frame.len();
        self.count += 1;
    }

    /// Discards the staged record, so that the next one takes its place.
    pub fn discard(&mut self)
        ensures { self.new ≡ record self.old { staged = [] } }
    {
        self.frame.truncate(self.kept);
    }

    /// Writes the group at a closed gate, like `append_group`, and is then empty.
    pub fn write<D: Disk>(&mut self, disk: &mut D, at: u64) -> Result<(), DiskFault>
        requires something { 1 ≤ self.old.count }
        requires nothing_staged { self.old.staged ≡ [] }
        requires place_fits { at + 1 < 2 ^ 64 }
        requires room { at + 6 + length (group_body self.old) ≤ (D.state disk.old).size }
        ensures trace { Makes D.state (append_calls at (group_body self.old)) (is_ok result) disk.old disk.new }
        ensures emptied { self.new ≡ empty_group self.old.most }
    {
        complete(&mut self.frame, self.count);
        let written = append_group(disk, at, &mut self.frame);
        self.clear();
        written
    }
}

/// Fills in the count before the records, and adds a byte for the gate after them.
fn complete(frame: &mut Vec<u8>, count: u16)
    requires long { 6 ≤ length frame.old.items }
    requires room { vec_len frame.old < vec_capacity frame.old }
    ensures body { body_in frame.new.items ≡ big_bytes 2 count ++ drop 6 frame.old.items }
    ensures len { length frame.new.items ≡ length frame.old.items + 1 }
    ensures capacity { vec_capacity frame.new ≡ vec_capacity frame.old }
{
    BigEndian::write_u16(&mut frame[BODY..], count);
    frame.push_reserved(0);
}
