ghost use Rattle.std.specs.Prelude.{◌∷◌, [], ℕ};
ghost use Rattle.rly_journal_fetch.specs.FetchReads.{IsFetched, IsThere, reply_of, row_for};
ghost use Rattle.rly_disk.specs.Trials.{Tries};

use rly_core::Refusal;
use rly_disk::Disk;
use rly_gate::{ReadFault, read_bytes};
use rly_machine::Payload;
use rly_segment_checkpoint::DeviceAddress;
use std::alloc::Global;

/// Reads a payload into new memory: by one read, if it has bytes.
pub fn read_payload<D: Disk>(
    alloc: Global,
    disk: &mut D,
    place: Option<DeviceAddress>,
) -> Result<Payload, Refusal>
    requires there { IsThere (D.state disk.old).size place }
    ensures payload { (limit : ℕ) → IsFetched (D.state disk.old) place limit (reply_of limit result) }
    ensures trace { (limit : ℕ) → Tries D.state (row_for place (reply_of limit result) ∷ []) disk.old disk.new }
{
    let Some(place) = place else {
        return Ok(Payload::new(Vec::new(alloc)));
    };
    match read_bytes(alloc, disk, place.start, usize::from(place.length)) {
        Ok(bytes) => Ok(Payload::new(bytes)),
        Err(ReadFault::OutOfMemory) => Err(Refusal::OutOfMemory),
        Err(ReadFault::Device) => Err(Refusal::DeviceRead),
    }
}
