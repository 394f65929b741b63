//! The datagrams that a command removes, and the counters of live bytes.

ghost use Rattle.std.specs.Prelude.{◌≡◌, ◌+◌, ◌<◌, ◌≤◌, ◌^◌, ℕ, IsTrue, MatchOption, false, length, map, slice_index};
ghost use Rattle.std.specs.Prelude.{sum_by, take};
ghost use Rattle.rly_machine.specs.Accepted.{is_accepted};
ghost use Rattle.rly_machine.specs.Map.{payload_of};
ghost use Rattle.rly_machine.specs.Release.{covered_count};
ghost use Rattle.rly_machine.specs.State.{has_hop, hop_at};
ghost use Rattle.rly_machine.specs.Step.{HasRoom, listed_count, step};
ghost use Rattle.rly_segment_checkpoint.specs.Stored.{stored_length};
ghost use Rattle.rly_reclaim.specs.RemovedPayloads.{removed_payloads};
ghost use Rattle.rly_reclaim.specs.Places.{bytes_in};
ghost use Rattle.rly_journal_index.specs.HelpersCounters.{IsHopOf, IsPartIfAny, items_of, part_in};

use rly_core::{Geometry, HopId};
use rly_machine::{Command, Content, Hop, Machine, Room};
use rly_reclaim::{live_at, segment_of};
use rly_segment_checkpoint::Stored;

/// Consecutive live datagrams of a hop. The index counts those in flight first, from 0, then those that wait.
#[derive(Clone, Copy)]
pub(crate) struct Part {
    /// Their hop.
    pub hop: HopId,
    /// The index of the first.
    pub from: usize,
    /// Their number.
    pub count: usize,
}

/// Returns the datagrams that a command removes if it is accepted. At a Pick, `room` gives the number that expire or
/// are dropped.
pub(crate) fn leaving_part(
    machine: &Machine<Stored>,
    command: &Command<Stored>,
    room: &Room,
) -> Option<Part>
    requires room { HasRoom stored_length machine.now room.now command.now }
    requires bounded { room.now.expired + room.now.dropped ≤ listed_count stored_length machine.now.state command.now }
    ensures part { IsPartIfAny machine.now.state result }
    ensures leaving { IsTrue (is_accepted (step stored_length machine.now.state command.now).1)
        → map (λ item. item.payload) (items_of machine.now.state result)
        ≡ removed_payloads stored_length machine.now.state command.now }
{
    machine.law_sound();
    match command {
        Command::Take { .. } => None,
        Command::Pick { hop, .. } => first_waiting(machine, *hop, room.count()),
        Command::Release { hop, number } => first_in_flight(machine, *hop, *number),
    }
}

/// Returns the first `count` waiting datagrams of a hop.
fn first_waiting(machine: &Machine<Stored>, hop: HopId, count: usize) -> Option<Part>
    ensures part { IsPartIfAny machine.now.state result }
    ensures items { IsTrue (has_hop machine.now.state hop)
        → items_of machine.now.state result ≡ take count (hop_at machine.now.state hop).queue }
{
    let found = hop_of(machine, hop)?;
    let from = found.flight.len();
    let waiting = found.queue.len();
    Some(Part {
        hop,
        from,
        count: count.min(waiting),
    })
}

/// Returns the datagrams in flight for a hop up to a custody number.
fn first_in_flight(machine: &Machine<Stored>, hop: HopId, number: u64) -> Option<Part>
    ensures part { IsPartIfAny machine.now.state result }
    ensures items { IsTrue (has_hop machine.now.state hop)
        → items_of machine.now.state result
        ≡ take (covered_count (hop_at machine.now.state hop) number) (hop_at machine.now.state hop).flight }
{
    let found = hop_of(machine, hop)?;
    let covered = number.saturating_sub(found.released);
    let in_flight = found.flight.len() as u64;
    Some(Part {
        hop,
        from: 0,
        count: covered.min(in_flight) as usize,
    })
}

/// Returns a hop, if it exists.
fn hop_of(machine: &Machine<Stored>, hop: HopId) -> Option<&Hop<Stored>>
    ensures { MatchOption result (has_hop machine.now.state hop ≡ false)
        (λ found. IsHopOf machine.now.state hop found.now) }
{
    let hops = machine.hops();
    let index = (hop.0 as usize).checked_sub(1)?;
    if index < hops.len() {
        Some(&hops[index])
    } else {
        None
    }
}

/// Returns the number of payload bytes of a command.
pub(crate) fn brought_bytes(command: &Command<Stored>) -> u64
    ensures { result ≡ sum_by stored_length (payload_of command.now) }
{
    match command {
        Command::Take { payload, .. } => payload.len() as u64,
        Command::Pick { .. } | Command::Release { .. } => 0,
    }
}

/// Subtracts the payload bytes of datagrams from the live bytes of their segments.
pub(crate) fn take_off(
    geometry: &Geometry,
    machine: &Machine<Stored>,
    given: Option<Part>,
    live: &mut [u64],
)
    requires length { 1 ≤ geometry.now.length }
    requires size { geometry.now.segments ≤ length live.old }
    requires part { IsPartIfAny machine.now.state given }
    requires least { (t : ℕ) → t < geometry.now.segments
        → part_in geometry.now t machine.now.state given ≤ slice_index live.old t }
    ensures { (t : ℕ) → t < geometry.now.segments
        → slice_index live.new t + part_in geometry.now t machine.now.state given ≡ slice_index live.old t }
{
    let Some(part) = given else {
        return;
    };
    machine.law_sound();
    let hop = &machine.hops()[part.hop.0 as usize - 1];
    for index in 0..part.count {
        take_off_payload(geometry, &live_at(hop, part.from + index).payload, live);
    }
}

/// Adds the payload bytes of datagrams to the live bytes of their segments.
pub(crate) fn put_back(
    geometry: &Geometry,
    machine: &Machine<Stored>,
    given: Option<Part>,
    live: &mut [u64],
)
    requires length { 1 ≤ geometry.now.length }
    requires size { geometry.now.segments ≤ length live.old }
    requires part { IsPartIfAny machine.now.state given }
    requires fits { (t : ℕ) → t < geometry.now.segments
        → slice_index live.old t + part_in geometry.now t machine.now.state given < 2 ^ 64 }
    ensures { (t : ℕ) → t < geometry.now.segments
        → slice_index live.new t ≡ slice_index live.old t + part_in geometry.now t machine.now.state given }
{
    let Some(part) = given else {
        return;
    };
    machine.law_sound();
    let hop = &machine.hops()[part.hop.0 as usize - 1];
    for index in 0..part.count {
        put_back_payload(geometry, &live_at(hop, part.from + index).payload, live);
    }
}

/// Subtracts the bytes of a payload by device address from the live bytes of its segment.
fn take_off_payload(geometry: &Geometry, payload: &Stored, live: &mut [u64])
    requires length { 1 ≤ geometry.now.length }
    requires size { geometry.now.segments ≤ length live.old }
    requires least { (t : ℕ) → t < geometry.now.segments
        → bytes_in geometry.now t payload.now ≤ slice_index live.old t }
    ensures { (t : ℕ) → t < geometry.now.segments
        → slice_index live.new t + bytes_in geometry.now t payload.now ≡ slice_index live.old t }
{
    if let Stored::Placed(place) = payload {
        let segment = segment_of(geometry, place.start);
        if segment < geometry.segments {
            live[segment as usize] -= u64::from(place.length);
        }
    }
}

/// Adds the bytes of a payload by device address to the live bytes of its segment.
fn put_back_payload(geometry: &Geometry, payload: &Stored, live: &mut [u64])
    requires length { 1 ≤ geometry.now.length }
    requires size { geometry.now.segments ≤ length live.old }
    requires fits { (t : ℕ) → t < geometry.now.segments
        → slice_index live.old t + bytes_in geometry.now t payload.now < 2 ^ 64 }
    ensures { (t : ℕ) → t < geometry.now.segments
        → slice_index live.new t ≡ slice_index live.old t + bytes_in geometry.now t payload.now }
{
    if let Stored::Placed(place) = payload {
        let segment = segment_of(geometry, place.start);
        if segment < geometry.segments {
            live[segment as usize] += u64::from(place.length);
        }
    }
}
