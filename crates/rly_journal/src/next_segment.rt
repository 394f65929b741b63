ghost use Rattle.std.specs.Prelude.{◌≡◌, ◌+◌, ◌<◌, ◌≤◌, ◌^◌, ◌↔◌, [], true, false, IsTrue, OnErr, OnOk, is_ok, length};
ghost use Rattle.std.specs.Prelude.{List, ℕ};
ghost use Rattle.rly_core.specs.Bounds.{IsIn};
ghost use Rattle.rly_disk.specs.Trace.{Makes};
ghost use Rattle.rly_gate.specs.Calls.{append_calls};
ghost use Rattle.rly_machine.specs.declared.call.Call.{Call};
ghost use Rattle.rly_machine.specs.State.{State};
ghost use Rattle.rly_segment.specs.Device.{IsLayout};
ghost use Rattle.rly_segment.specs.Heads.{segment_end, segment_place};
ghost use Rattle.rly_journal.specs.Groups.{empty_group, group_body};
ghost use Rattle.rly_journal.specs.Log.{IsFull};
ghost use Rattle.rly_journal.specs.HelpersJournal.{IsAtEnd, IsShaped, IsSoundJournal};
ghost use Rattle.rly_journal.specs.HelpersRounds.{IsRenewing};
ghost use Rattle.rly_journal.specs.Journal.{holds_command};

use crate::group::Group;
use crate::tail::Tail;
use rly_core::limits::MAX_PAYLOAD;
use rly_disk::{Disk, DiskFault};
use rly_journal_index::Index;
use rly_journal_relocate::{CollectionFault, collect_victim};
use rly_reclaim::is_due;
use rly_segment::{OpeningFault, Target, open_segment, segment_place};
use std::alloc::Global;

/// The reason that the next segment was not opened.
#[derive(Clone, Copy, PartialEq, Eq)]
pub(crate) enum RenewFault {
    /// Memory allocation failed for the copy of the spool, or for its head. Nothing was written.
    OutOfMemory,
    /// A read of the victim's payloads failed. Nothing was written.
    Read,
    /// A write or a sync of the device failed.
    Device,
}

/// Returns true iff the largest group doesn't fit into the segment.
pub(crate) fn is_full(tail: &Tail) -> bool
    requires segment { tail.now.segment < 256 }
    requires length { tail.now.geometry.length < 2 ^ 31 }
    requires payload { tail.now.geometry.params.payload ≤ MAX_PAYLOAD }
    requires gate { segment_place tail.now.geometry tail.now.segment ≤ tail.now.gate }
    requires within { tail.now.gate < segment_end tail.now.geometry tail.now.segment }
    ensures { IsTrue result ↔ IsFull tail.now }
{
    let offset = tail.gate - segment_place(&tail.geometry, tail.segment);
    is_due(&tail.geometry, offset)
}

/// Opens the next segment with a head of the spool that has the victim's payloads inline. From then on they lie there.
pub(crate) fn renew<D: Disk>(
    alloc: Global,
    disk: &mut D,
    tail: &mut Tail,
    index: &mut Index,
) -> Result<(), RenewFault>
    requires shaped { IsShaped (D.state disk.old).size tail.old index.old }
    requires ends { IsAtEnd tail.old index.old }
    requires full { IsFull tail.old }
    ensures { (s : State (List ℕ)) (position : ℕ) (calls : List Call) → holds_command calls ≡ true
        → IsSoundJournal (D.state disk.old) tail.old index.old s position false
        → IsRenewing D.state tail.old tail.new index.new s position calls result disk.old disk.new }
{
    index.law_index();
    let choice = index.choose();
    let victim = choice.victim as u64;
    let copy = match collect_victim(alloc, disk, &tail.geometry, victim, index.machine()) {
        Ok(copy) => copy,
        Err(CollectionFault::OutOfMemory) => return Err(RenewFault::OutOfMemory),
        Err(CollectionFault::Device) => return Err(RenewFault::Read),
    };
    copy.law_sound();
    let target = Target {
        segment: choice.target as u64,
        closed: tail.closed[choice.target],
    };
    let generation = tail.generation + 1;
    let gate = match open_segment(alloc, disk, &tail.geometry, target, generation, &copy) {
        Ok(gate) => gate,
        Err(OpeningFault::OutOfMemory) => return Err(RenewFault::OutOfMemory),
        Err(OpeningFault::Device) => return Err(RenewFault::Device),
    };
    index.relocate_victim(choice, gate);
    tail.segment = target.segment;
    tail.generation = generation;
    tail.gate = gate;
    tail.closed[choice.target] = false;
    Ok(())
}

/// Writes a group of accepted commands after the last one.
pub(crate) fn append<D: Disk>(
    disk: &mut D,
    tail: &mut Tail,
    group: &mut Group,
) -> Result<(), DiskFault>
    requires something { IsIn 1 64 group.old.count }
    requires nothing_staged { group.old.staged ≡ [] }
    requires geometry { IsLayout tail.old.geometry (D.state disk.old).size }
    requires segment { tail.old.segment < tail.old.geometry.segments }
    requires room { tail.old.gate + 6 + length (group_body group.old) ≤ segment_end tail.old.geometry tail.old.segment }
    ensures gate { OnOk result
        (tail.new ≡ record tail.old { gate = tail.old.gate + (5 + length (group_body group.old)) }) }
    ensures err { OnErr result (tail.new ≡ tail.old) }
    ensures emptied { group.new ≡ empty_group group.old.most }
    ensures trace { Makes D.state (append_calls tail.old.gate (group_body group.old)) (is_ok result) disk.old disk.new }
{
    let length = group.len();
    group.write(disk, tail.gate)?;
    tail.gate += length;
    Ok(())
}
