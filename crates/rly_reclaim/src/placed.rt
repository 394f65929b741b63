ghost use Rattle.std.specs.Prelude.{◌≡◌, ◌↔◌, ◌+◌, ◌<◌, ◌≤◌, ◌^◌, ℕ, All, IsTrue, length, map, slice_index};
ghost use Rattle.std.specs.Prelude.{slice_index_or, take};
ghost use Rattle.rly_core.specs.Bounds.{IsIn};
ghost use Rattle.rly_machine.specs.Kept.{hop_state};
ghost use Rattle.rly_machine.specs.State.{bytes_of, live_line};
ghost use Rattle.rly_reclaim.specs.Placed.{IsPlaced, LiesElsewhere};
ghost use Rattle.rly_reclaim.specs.Places.{bytes_in, live_by_segment};

use crate::places::{FIRST_SEGMENT, segment_of};
use crate::segment_choice::free_segment;
use rly_core::Geometry;
use rly_core::limits::MAX_SEGMENTS;
use rly_machine::{Hop, Item, Machine};
use rly_segment_checkpoint::{DeviceAddress, Stored};

/// The number of segments with a counter.
const COUNTED: usize = MAX_SEGMENTS as usize;

/// Returns true iff the head of a segment may have a state with these device addresses: each lies in another segment,
/// and some other segment holds none. Allocates nothing.
pub fn is_placed(geometry: &Geometry, own: u64, machine: &Machine<Stored>) -> bool
    requires segments { IsIn 2 256 geometry.now.segments }
    requires length { IsIn 1 (2 ^ 31) geometry.now.length }
    ensures { IsTrue result ↔ IsPlaced geometry.now own machine.now.state }
{
    machine.law_sound();
    if !lie_elsewhere(geometry, own, machine.hops()) {
        return false;
    }
    let live = live_by_segment(geometry, machine);
    free_segment(&live[..geometry.segments as usize], own as usize).is_some()
}

/// Returns the live payload bytes of each segment; ignore the entries after the last segment. Allocates nothing.
pub fn live_by_segment(geometry: &Geometry, machine: &Machine<Stored>) -> [u64; COUNTED]
    requires segments { IsIn 2 256 geometry.now.segments }
    requires length { IsIn 1 (2 ^ 31) geometry.now.length }
    ensures { take geometry.now.segments result ≡ live_by_segment geometry.now machine.now.state }
{
    machine.law_sound();
    let mut live = [0; COUNTED];
    let hops = machine.hops();
    for hop in hops {
        add_hop(geometry, hop, &mut live);
    }
    live
}

/// Adds the live payload bytes of a hop to those of each segment.
fn add_hop(geometry: &Geometry, hop: &Hop<Stored>, live: &mut [u64])
    requires length { 1 ≤ geometry.now.length }
    requires count { length (live_line (hop_state hop.now)) < 2 ^ 64 }
    requires fits { (t : ℕ) → t < length live.old
        → slice_index live.old t + bytes_of (bytes_in geometry.now t) (live_line (hop_state hop.now)) < 2 ^ 64 }
    ensures { (t : ℕ) → t < length live.old
        → slice_index live.new t
        ≡ slice_index live.old t + bytes_of (bytes_in geometry.now t) (live_line (hop_state hop.now)) }
{
    let count = hop.flight.len() + hop.queue.len();
    for index in 0..count {
        add_payload(geometry, &live_at(hop, index).payload, live);
    }
}

/// Adds the bytes of a payload to those of the segment that its device address lies in.
fn add_payload(geometry: &Geometry, payload: &Stored, live: &mut [u64])
    requires length { 1 ≤ geometry.now.length }
    requires fits { (t : ℕ) → t < length live.old
        → slice_index live.old t + bytes_in geometry.now t payload.now < 2 ^ 64 }
    ensures { (t : ℕ) → t < length live.old
        → slice_index live.new t ≡ slice_index live.old t + bytes_in geometry.now t payload.now }
{
    if let Stored::Placed(place) = payload {
        let segment = segment_of(geometry, place.start);
        if segment < live.len() as u64 {
            live[segment as usize] += u64::from(place.length);
        }
    }
}

/// Returns true iff each payload by device address of these hops lies in another segment.
fn lie_elsewhere(geometry: &Geometry, own: u64, hops: &[Hop<Stored>]) -> bool
    requires length { IsIn 1 (2 ^ 31) geometry.now.length }
    requires counts { All (λ h. length (live_line h) < 2 ^ 64) (map hop_state hops.now) }
    ensures { IsTrue result
        ↔ All (λ h. All (λ item. LiesElsewhere geometry.now own item.payload) (live_line h)) (map hop_state hops.now) }
{
    for hop in hops {
        if !hop_lies_elsewhere(geometry, own, hop) {
            return false;
        }
    }
    true
}

/// Returns true iff each payload by device address of a hop lies in another segment.
fn hop_lies_elsewhere(geometry: &Geometry, own: u64, hop: &Hop<Stored>) -> bool
    requires length { IsIn 1 (2 ^ 31) geometry.now.length }
    requires count { length (live_line (hop_state hop.now)) < 2 ^ 64 }
    ensures { IsTrue result
        ↔ All (λ item. LiesElsewhere geometry.now own item.payload) (live_line (hop_state hop.now)) }
{
    let count = hop.flight.len() + hop.queue.len();
    for index in 0..count {
        if !lies_elsewhere(geometry, own, &live_at(hop, index).payload) {
            return false;
        }
    }
    true
}

/// Returns true iff a payload is inline or lies in another segment.
fn lies_elsewhere(geometry: &Geometry, own: u64, payload: &Stored) -> bool
    requires length { IsIn 1 (2 ^ 31) geometry.now.length }
    ensures { IsTrue result ↔ LiesElsewhere geometry.now own payload.now }
{
    match payload {
        Stored::Inline(_) => true,
        Stored::Placed(place) => is_elsewhere(geometry, own, place),
    }
}

/// Returns true iff a device address has bytes, and lies wholly in one segment other than the given one.
fn is_elsewhere(geometry: &Geometry, own: u64, place: &DeviceAddress) -> bool
    requires length { IsIn 1 (2 ^ 31) geometry.now.length }
    ensures { IsTrue result ↔ LiesElsewhere geometry.now own (Stored.Placed place.now) }
{
    if place.length == 0 || place.start < FIRST_SEGMENT {
        return false;
    }
    let offset = place.start - FIRST_SEGMENT;
    let segment = offset / geometry.length;
    if segment >= geometry.segments || segment == own {
        return false;
    }
    offset % geometry.length + u64::from(place.length) <= geometry.length
}

/// Returns a live datagram of a hop; the index counts from the first in flight.
pub fn live_at(hop: &Hop<Stored>, index: usize) -> &Item<Stored>
    requires { index < length (live_line (hop_state hop.now)) }
    ensures { result.now ≡ slice_index_or (live_line (hop_state hop.now)) index result.now }
{
    let in_flight = hop.flight.len();
    if index < in_flight {
        &hop.flight[index]
    } else {
        hop.queue.item(index - in_flight)
    }
}
