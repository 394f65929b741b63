ghost use Rattle.std.specs.Prelude.{◌≡◌, ◌+◌, ◌<◌, ◌≤◌, ◌^◌, All, List, IfOk, length, ℕ};
ghost use Rattle.rly_machine.specs.Kept.{hop_state};
ghost use Rattle.rly_machine.specs.Map.{map_hop};
ghost use Rattle.rly_machine.specs.State.{live_line};
ghost use Rattle.rly_segment.specs.Device.{IsLayout};
ghost use Rattle.rly_journal_relocate.specs.Relocation.{LiesThere};
ghost use Rattle.rly_journal_relocate.specs.Collection.{IsCollection, blank_payload};
ghost use Rattle.rly_journal_relocate.specs.HelpersCollection.{blank_items, collected_blank, collected_in, items_blank};
ghost use Rattle.rly_journal_relocate.specs.HelpersCollection.{items_in, items_reads, part_of};

use crate::fault::CollectionFault;
use crate::payloads::collect_payload;
use rly_core::Geometry;
use rly_disk::Disk;
use rly_machine::{Hop, Item, Queue};
use rly_reclaim::live_at;
use rly_segment_checkpoint::Stored;
use std::alloc::Global;
use std::collections::VecDeque;

/// Returns a hop for the next head.
pub(crate) fn collect_hop<D: Disk>(
    alloc: Global,
    disk: &mut D,
    geometry: &Geometry,
    victim: u64,
    hop: &Hop<Stored>,
) -> Result<Hop<Stored>, CollectionFault>
    requires layout { IsLayout geometry.now (D.state disk.old).size }
    requires lies { All (λ item. LiesThere geometry.now item.payload) (live_line (hop_state hop.now)) }
    requires count { length (live_line (hop_state hop.now)) < 2 ^ 63 }
    ensures drawn { (image : List ℕ) → (D.state disk.old).honest → image ≡ (D.state disk.old).seen
        → IfOk result (λ copy. hop_state copy ≡ map_hop (collected_in image geometry.now victim) (hop_state hop.now)) }
    ensures lengths { IfOk result
        (λ copy. map_hop blank_payload (hop_state copy)
        ≡ map_hop (collected_blank geometry.now victim) (hop_state hop.now)) }
    ensures trace { IsCollection D.state
        (items_reads geometry.now victim (live_line (hop_state hop.now))) result disk.old disk.new }
{
    let in_flight = hop.flight.len();
    let flight = collect_items(alloc, disk, geometry, victim, hop, 0, in_flight)?;
    let waiting = collect_items(
        alloc,
        disk,
        geometry,
        victim,
        hop,
        in_flight,
        hop.queue.len(),
    )?;
    let queue = Queue::of(alloc, waiting)?;
    Ok(Hop {
        queue,
        flight: VecDeque::from_vec(flight),
        codel: hop.codel,
        moment: hop.moment,
        taken: hop.taken,
        dropped: hop.dropped,
        expired: hop.expired,
        released: hop.released,
    })
}

/// Returns `count` datagrams of a hop for the next head, from an index on.
fn collect_items<D: Disk>(
    alloc: Global,
    disk: &mut D,
    geometry: &Geometry,
    victim: u64,
    hop: &Hop<Stored>,
    from: usize,
    count: usize,
) -> Result<Vec<Item<Stored>>, CollectionFault>
    requires layout { IsLayout geometry.now (D.state disk.old).size }
    requires lies { All (λ item. LiesThere geometry.now item.payload) (live_line (hop_state hop.now)) }
    requires within { from + count ≤ length (live_line (hop_state hop.now)) }
    requires short { length (live_line (hop_state hop.now)) < 2 ^ 63 }
    ensures drawn { (image : List ℕ) → (D.state disk.old).honest → image ≡ (D.state disk.old).seen
        → IfOk result (λ items. items.items
        ≡ items_in image geometry.now victim (part_of (hop_state hop.now) from count)) }
    ensures lengths { IfOk result
        (λ items. blank_items items.items ≡ items_blank geometry.now victim (part_of (hop_state hop.now) from count)) }
    ensures trace { IsCollection D.state
        (items_reads geometry.now victim (part_of (hop_state hop.now) from count)) result disk.old disk.new }
{
    let mut items = Vec::with_capacity(alloc, count)?;
    for index in 0..count {
        let item = live_at(hop, from + index);
        let payload = collect_payload(alloc, disk, geometry, victim, &item.payload)?;
        items.push_reserved(Item {
            id: item.id,
            stamp: item.stamp,
            limit: item.limit,
            payload,
        });
    }
    Ok(items)
}
