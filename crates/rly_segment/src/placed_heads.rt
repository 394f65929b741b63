ghost use Rattle.std.specs.Prelude.{◌≡◌, ◌<◌, ℕ, IfOk, Option, Some, length};
ghost use Rattle.rly_segment_checkpoint.specs.Checkpoint.{IsOfForm, state_spelled};
ghost use Rattle.rly_segment_checkpoint.specs.Stored.{stored_length, stored_spelled};
ghost use Rattle.rly_disk.specs.Trace.{Makes};
ghost use Rattle.rly_reclaim.specs.Placed.{IsPlaced};
ghost use Rattle.rly_segment.specs.Calls.{head_reads, reads_head};
ghost use Rattle.rly_segment.specs.Device.{IsLayout};
ghost use Rattle.rly_segment.specs.Heads.{IsHeadOf, gate_after, segment_place};
ghost use Rattle.rly_segment.specs.PlacedHeads.{IsReadPlaced};

use crate::heads::{Head, HeadFault, read_head_of};
use rly_core::Geometry;
use rly_disk::Disk;
use rly_reclaim::is_placed;
use rly_segment_checkpoint::{Stored, law_one_spelling};
use std::alloc::Global;

/// Reads the state of a segment's head, with its payloads inline or by device address. Reads no payload by device
/// address. Allocates at most the segment's length plus the memory of the state.
pub fn read_placed_head<D: Disk>(
    alloc: Global,
    disk: &mut D,
    geometry: &Geometry,
    segment: u64,
) -> Result<Head<Stored>, HeadFault>
    requires geometry { IsLayout geometry.now (D.state disk.old).size }
    requires segment { segment < geometry.now.segments }
    ensures head { IfOk result
        (λ head. IsHeadOf stored_length
        (stored_spelled head.form) geometry.now segment head.generation head.machine.state) }
    ensures plain { IfOk result (λ head. IsOfForm head.form head.machine.state) }
    ensures placed { IfOk result (λ head. IsPlaced geometry.now segment head.machine.state) }
    ensures gate { IfOk result
        (λ head. head.gate
        ≡ gate_after stored_length (stored_spelled head.form) geometry.now segment head.machine.state) }
    ensures read { (D.state disk.old).honest → IsReadPlaced (D.state disk.old).seen geometry.now segment result }
    ensures trace { (body : Option ℕ)
        × IfOk result (λ head. body
        ≡ Some (length (state_spelled stored_length (stored_spelled head.form) head.machine.state)))
        × Makes D.state (head_reads (segment_place geometry.now segment) body) (reads_head result) disk.old disk.new }
{
    law_one_spelling::<Stored>();
    let head = match read_head_of(alloc, disk, geometry, segment) {
        Ok(head) => head,
        Err(fault) => return Err(fault),
    };
    if !is_placed(geometry, segment, &head.machine) {
        return Err(HeadFault::Damaged);
    }
    Ok(head)
}
