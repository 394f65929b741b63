ghost use Rattle.std.specs.Prelude.{◌≡◌, ◌+◌, ◌<◌, ◌≤◌, Err, IfErr, IfOk, IsTrue, Ok, OnErr};
ghost use Rattle.rly_machine.specs.Accepted.{is_accepted};
ghost use Rattle.rly_machine.specs.Query.{item_of, show_reply, window_reply};
ghost use Rattle.rly_machine.specs.Sound.{IsSound};
ghost use Rattle.rly_machine.specs.Step.{HasRoom, NeedsRoom, listed_count, step};
ghost use Rattle.rly_segment_checkpoint.specs.Stored.{stored_form, stored_length, stored_spelled};
ghost use Rattle.rly_reclaim.specs.Placed.{IsPlaced};
ghost use Rattle.rly_reclaim.specs.Places.{live_by_segment, live_in};
ghost use Rattle.rly_reclaim.specs.LiveRoom.{HasRoomFor, collected_state};
ghost use Rattle.rly_reclaim.specs.SegmentChoice.{IsFree, IsVictim};
ghost use Rattle.rly_segment.specs.Device.{IsLayout, device_length};
ghost use Rattle.rly_segment.specs.Heads.{IsHeadOf, gate_after};
ghost use Rattle.rly_segment.specs.HeadAddresses.{state_in_head};
ghost use Rattle.rly_journal_relocate.specs.Relocation.{MayMove, relocated_state, zeros_at};
ghost use Rattle.rly_journal_index.specs.IndexRelation.{IsBrought};
ghost use Rattle.rly_journal_index.specs.Index.{HoldsIndex, IsAt, used_after};

use crate::segment_counters::{brought_bytes, leaving_part, put_back, take_off};
use rly_core::limits::MAX_SEGMENTS;
use rly_core::{Geometry, HopId, Refusal};
use rly_journal_relocate::{relocate_all, relocate_read};
use rly_machine::{Command, Item, Machine, Reply, Room};
use rly_reclaim::{Choice, choose, live_by_segment};
use rly_segment::Head;
use rly_segment_checkpoint::{HeadForm, Stored};
use std::alloc::{AllocError, Global};
use std::marker::Model;

/// The number of segments with a counter.
const COUNTED: usize = MAX_SEGMENTS as usize;

/// A spool whose payloads stay on the device. In contracts it is its spool, the geometry of its device, the current
/// segment, and the device offset up to which that is used.
#[derive(Drop)]
pub struct Index {
    machine: Machine<Stored>,
    geometry: Geometry,
    segment: u64,
    used: u64,
    /// The live bytes of each segment; the entries after the last segment are meaningless.
    live: [u64; COUNTED],
}

impl Model for Index {
    ghost use Rattle.rly_journal_index.specs.HelpersCounters.{KeepsIndex};
    ghost use Rattle.rly_journal_index.specs.Index.{IndexState};

    ghost Value = { IndexState };

    ghost view = { λ x. record { spool = x.machine; geometry = x.geometry; segment = x.segment; used = x.used } };

    ghost invariant = { λ x. KeepsIndex x.geometry x.segment x.used x.machine.state x.live };
}

impl Index {
    /// Makes the index of a segment's head that `read_placed_head` returned. Inline payloads get their device addresses
    /// in that head. Visits each live datagram twice. Allocates nothing.
    pub fn begin(geometry: Geometry, segment: u64, head: Head<Stored>) -> Index
        requires layout { IsLayout geometry (device_length geometry) }
        requires segment { segment < geometry.segments }
        requires head { IsHeadOf stored_length
            (stored_spelled head.form) geometry segment head.generation head.machine.state }
        requires placed { IsPlaced geometry segment head.machine.state }
        requires gate { head.gate
            ≡ gate_after stored_length (stored_spelled head.form) geometry segment head.machine.state }
        ensures state { result.spool.state ≡ state_in_head head.form geometry segment head.machine.state }
        ensures at { IsAt geometry segment head.gate result }
    {
        let form = head.form;
        let gate = head.gate;
        let mut machine = head.machine;
        relocate_read(form, &geometry, segment, &mut machine);
        let live = live_by_segment(&geometry, &machine);
        Index {
            machine,
            geometry,
            segment,
            used: gate,
            live,
        }
    }

    /// The invariant of every index, as a law.
    pub fn law_index(&self)
        ensures sound { IsSound stored_length self.now.spool.state }
        ensures holds { HoldsIndex self.now.geometry self.now.segment self.now.used self.now.spool.state }
    {
        self.machine.law_sound();
    }

    /// Returns the spool.
    pub fn machine(&self) -> &Machine<Stored>
        ensures { result.now ≡ self.now.spool }
    {
        &self.machine
    }

    /// Returns the geometry of the device.
    pub fn geometry(&self) -> Geometry
        ensures { result ≡ self.now.geometry }
    {
        self.geometry
    }

    /// Returns the current segment.
    pub fn segment(&self) -> u64
        ensures { result ≡ self.now.segment }
    {
        self.segment
    }

    /// Returns the device offset up to which the current segment is used.
    pub fn used_until(&self) -> u64
        ensures { result ≡ self.now.used }
    {
        self.used
    }

    /// Returns the live payload bytes of a segment.
    pub fn live_in(&self, segment: u64) -> u64
        requires { segment < self.now.geometry.segments }
        ensures { result ≡ live_in self.now.geometry segment self.now.spool.state }
    {
        let live = &self.live;
        live[segment as usize]
    }

    /// Allocates the memory that a command may need. If that fails, the index is unchanged.
    pub fn reserve_for(
        &mut self,
        alloc: Global,
        command: &Command<Stored>,
    ) -> Result<Room, AllocError>
        ensures state { self.new.spool.state ≡ self.old.spool.state }
        ensures at { IsAt self.old.geometry self.old.segment self.old.used self.new }
        ensures room { IfOk result (λ room. HasRoom stored_length self.new.spool room command.now) }
        ensures bounded { IfOk result (λ room. room.expired + room.dropped
            ≤ listed_count stored_length self.old.spool.state command.now) }
        ensures memory { OnErr result (NeedsRoom stored_length self.old.spool command.now) }
    {
        self.machine.reserve_for(alloc, command)
    }

    /// Applies a command whose record, if it is accepted, ends at the offset `next`. Allocates nothing, and visits only
    /// the datagrams that the command removes.
    pub fn apply(&mut self, command: Command<Stored>, room: Room, next: u64) -> Reply
        requires room { HasRoom stored_length self.old.spool room command }
        requires bounded { room.expired + room.dropped ≤ listed_count stored_length self.old.spool.state command }
        requires brought { IsTrue (is_accepted (step stored_length self.old.spool.state command).1)
            → IsBrought self.old.geometry self.old.segment self.old.used next command }
        ensures state { self.new.spool.state ≡ (step stored_length self.old.spool.state command).0 }
        ensures reply { result ≡ (step stored_length self.old.spool.state command).1 }
        ensures at { IsAt self.old.geometry self.old.segment (used_after self.old.used next result) self.new }
    {
        let leaving = leaving_part(&self.machine, &command, &room);
        let brought = brought_bytes(&command);
        take_off(&self.geometry, &self.machine, leaving, &mut self.live);
        let reply = self.machine.apply(command, room);
        self.machine.law_sound();
        if reply.is_accepted() {
            self.live[self.segment as usize] += brought;
            self.used = next;
        } else {
            put_back(&self.geometry, &self.machine, leaving, &mut self.live);
        }
        reply
    }

    /// Returns the segment to open next, and the segment to clean, whose live payloads move into its head. Visits no
    /// datagram.
    pub fn choose(&self) -> Choice
        ensures target { IsFree
            (live_by_segment self.now.geometry self.now.spool.state) self.now.segment result.target }
        ensures victim { IsVictim (live_by_segment self.now.geometry self.now.spool.state) result.target result.victim }
        ensures may { MayMove self.now.geometry result.target result.victim self.now.spool.state }
        ensures room { HasRoomFor self.now.geometry self.now.spool.state result.victim }
    {
        self.machine.law_sound();
        let live = &self.live[..self.geometry.segments as usize];
        match choose(live, self.segment as usize) {
            Some(choice) => choice,
            None => unreachable!(),
        }
    }

    /// Updates the index after the chosen segment was opened with the victim's payloads inline in its head, and its
    /// first gate at the offset `gate`. Allocates nothing.
    pub fn relocate_victim(&mut self, choice: Choice, gate: u64)
        requires may { MayMove self.old.geometry choice.target choice.victim self.old.spool.state }
        requires victim { choice.victim < self.old.geometry.segments }
        requires gate { gate ≡ gate_after stored_length stored_form self.old.geometry choice.target
            (collected_state self.old.geometry choice.victim zeros_at self.old.spool.state) }
        ensures state { self.new.spool.state
            ≡ relocated_state self.old.geometry choice.target choice.victim self.old.spool.state }
        ensures at { IsAt self.old.geometry choice.target gate self.new }
    {
        let target = choice.target as u64;
        relocate_all(
            HeadForm::Second,
            &self.geometry,
            target,
            choice.victim as u64,
            &mut self.machine,
        );
        self.live[choice.target] = self.live[choice.victim];
        self.live[choice.victim] = 0;
        self.segment = target;
        self.used = gate;
    }

    /// Returns the item in flight under a custody number, or the refusal. Allocates nothing.
    pub fn item(&self, hop: HopId, number: u64) -> Result<&Item<Stored>, Refusal>
        ensures ok { IfOk result (λ item. item_of self.now.spool.state hop number ≡ Ok item.now) }
        ensures err { IfErr result (λ refusal. item_of self.now.spool.state hop number ≡ Err refusal) }
    {
        self.machine.item(hop, number)
    }

    /// Returns the custody numbers in flight, or that the hop doesn't exist. Allocates nothing.
    pub fn ask_window(&self, hop: HopId) -> Reply
        ensures { result ≡ window_reply self.now.spool.state hop }
    {
        self.machine.ask_window(hop)
    }

    /// Returns all counters of a hop, or that the hop doesn't exist. Allocates nothing.
    pub fn ask_show(&self, hop: HopId) -> Reply
        ensures { result ≡ show_reply self.now.spool.state hop }
    {
        self.machine.ask_show(hop)
    }
}
