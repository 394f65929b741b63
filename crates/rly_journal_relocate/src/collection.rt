ghost use Rattle.std.specs.Prelude.{◌≡◌, ◌<◌, ◌^◌, All, List, IfOk, length, map, ℕ};
ghost use Rattle.rly_machine.specs.Kept.{hop_state};
ghost use Rattle.rly_machine.specs.Map.{map_hop, payloads_of};
ghost use Rattle.rly_machine.specs.State.{live_line};
ghost use Rattle.rly_reclaim.specs.LiveRoom.{collected_state};
ghost use Rattle.rly_segment.specs.Device.{IsLayout};
ghost use Rattle.rly_journal_relocate.specs.Relocation.{LiesThere, zeros_at};
ghost use Rattle.rly_journal_relocate.specs.Collection.{IsCollection, IsSameButForBytes, blank_payload, bytes_at};
ghost use Rattle.rly_journal_relocate.specs.Collection.{victim_reads};
ghost use Rattle.rly_journal_relocate.specs.HelpersCollection.{collected_blank, collected_in, hops_reads};

use crate::fault::CollectionFault;
use crate::lines::collect_hop;
use rly_core::Geometry;
use rly_disk::Disk;
use rly_machine::{Hop, Machine};
use rly_segment_checkpoint::Stored;
use std::alloc::{AllocError, Global};

/// Returns a copy of a spool in which the victim's payloads are inline, read from the device: the state for the next
/// head. Allocates only the copy. Writes nothing; the spool is unchanged.
pub fn collect_victim<D: Disk>(
    alloc: Global,
    disk: &mut D,
    geometry: &Geometry,
    victim: u64,
    machine: &Machine<Stored>,
) -> Result<Machine<Stored>, CollectionFault>
    requires layout { IsLayout geometry.now (D.state disk.old).size }
    requires lies { All (LiesThere geometry.now) (payloads_of machine.now.state) }
    ensures drawn { (D.state disk.old).honest
        → IfOk result (λ copy. copy.state
        ≡ collected_state geometry.now victim (bytes_at (D.state disk.old).seen) machine.now.state) }
    // On a disk that isn't honest it is the same except for bytes.
    ensures lengths { IfOk result
        (λ copy. IsSameButForBytes copy.state (collected_state geometry.now victim zeros_at machine.now.state)) }
    // One read for each payload of the victim that has bytes, in the order of the spool, and no read after a failed
    // one.
    ensures trace { IsCollection D.state (victim_reads geometry.now victim machine.now.state) result disk.old disk.new }
{
    machine.law_sound();
    let lasts = copy_of(alloc, machine.lasts())?;
    let hops = collect_hops(alloc, disk, geometry, victim, machine.hops())?;
    let copy = Machine::restore(machine.params(), machine.seq(), lasts, hops)?;
    Ok(copy)
}

/// Returns hops for the next head.
fn collect_hops<D: Disk>(
    alloc: Global,
    disk: &mut D,
    geometry: &Geometry,
    victim: u64,
    hops: &[Hop<Stored>],
) -> Result<Vec<Hop<Stored>>, CollectionFault>
    requires layout { IsLayout geometry.now (D.state disk.old).size }
    requires lies { All (λ h. All (λ item. LiesThere geometry.now item.payload) (live_line h))
        (map hop_state hops.now) }
    requires counts { All (λ h. length (live_line h) < 2 ^ 63) (map hop_state hops.now) }
    ensures drawn { (image : List ℕ) → (D.state disk.old).honest → image ≡ (D.state disk.old).seen
        → IfOk result (λ copy. map hop_state copy.items
        ≡ map (map_hop (collected_in image geometry.now victim)) (map hop_state hops.now)) }
    ensures lengths { IfOk result (λ copy. map (map_hop blank_payload) (map hop_state copy.items)
        ≡ map (map_hop (collected_blank geometry.now victim)) (map hop_state hops.now)) }
    ensures trace { IsCollection D.state
        (hops_reads geometry.now victim (map hop_state hops.now)) result disk.old disk.new }
{
    let mut copy = Vec::with_capacity(alloc, hops.len())?;
    for hop in hops {
        let drawn = collect_hop(alloc, disk, geometry, victim, hop)?;
        copy.push_reserved(drawn);
    }
    Ok(copy)
}

/// Returns a copy of numbers.
fn copy_of(alloc: Global, numbers: &[u64]) -> Result<Vec<u64>, AllocError>
    ensures { IfOk result (λ copy. copy.items ≡ numbers.now) }
{
    let mut copy = Vec::new(alloc);
    copy.extend_from_slice(numbers)?;
    Ok(copy)
}
