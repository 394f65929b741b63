ghost use Rattle.std.specs.Prelude.{◌≡◌, List, IfOk, length, ℕ};
ghost use Rattle.rly_segment_checkpoint.specs.declared.stored.Stored.TheVariants.{Placed};
ghost use Rattle.rly_segment.specs.Device.{IsLayout};
ghost use Rattle.rly_journal_relocate.specs.Relocation.{LiesThere};
ghost use Rattle.rly_journal_relocate.specs.Collection.{IsCollection, blank_payload, victim_payload_reads};
ghost use Rattle.rly_journal_relocate.specs.HelpersCollection.{collected_blank, collected_in};

use crate::fault::CollectionFault;
use rly_core::Geometry;
use rly_disk::Disk;
use rly_gate::read_bytes;
use rly_machine::Payload;
use rly_reclaim::segment_of;
use rly_segment_checkpoint::{DeviceAddress, Stored};
use std::alloc::Global;

/// Returns a payload for the next head: read from the device, inline, if it lies in the victim; else unchanged.
pub(crate) fn collect_payload<D: Disk>(
    alloc: Global,
    disk: &mut D,
    geometry: &Geometry,
    victim: u64,
    payload: &Stored,
) -> Result<Stored, CollectionFault>
    requires layout { IsLayout geometry.now (D.state disk.old).size }
    requires lies { LiesThere geometry.now payload.now }
    ensures drawn { (image : List ℕ) → (D.state disk.old).honest → image ≡ (D.state disk.old).seen
        → IfOk result (λ drawn. drawn ≡ collected_in image geometry.now victim payload.now) }
    ensures lengths { IfOk result (λ drawn. blank_payload drawn ≡ collected_blank geometry.now victim payload.now) }
    ensures trace { IsCollection D.state
        (victim_payload_reads geometry.now victim payload.now) result disk.old disk.new }
{
    match payload {
        Stored::Inline(payload) => {
            let copy = Payload::copy_of(alloc, payload.as_slice())?;
            Ok(Stored::Inline(copy))
        }
        Stored::Placed(place) => collect_placed(alloc, disk, geometry, victim, place),
    }
}

/// The same for a payload by device address.
fn collect_placed<D: Disk>(
    alloc: Global,
    disk: &mut D,
    geometry: &Geometry,
    victim: u64,
    place: &DeviceAddress,
) -> Result<Stored, CollectionFault>
    requires layout { IsLayout geometry.now (D.state disk.old).size }
    requires lies { LiesThere geometry.now (Placed place.now) }
    ensures drawn { (image : List ℕ) → (D.state disk.old).honest → image ≡ (D.state disk.old).seen
        → IfOk result (λ drawn. drawn ≡ collected_in image geometry.now victim (Placed place.now)) }
    ensures lengths { IfOk result
        (λ drawn. blank_payload drawn ≡ collected_blank geometry.now victim (Placed place.now)) }
    ensures trace { IsCollection D.state
        (victim_payload_reads geometry.now victim (Placed place.now)) result disk.old disk.new }
{
    if segment_of(geometry, place.start) != victim {
        return Ok(Stored::Placed(*place));
    }
    let bytes = read_bytes(alloc, disk, place.start, usize::from(place.length))?;
    Ok(Stored::Inline(Payload::new(bytes)))
}
