ghost use Rattle.std.specs.Prelude.{◌≡◌, ◌+◌, ◌<◌, ◌≤◌, ◌↔◌, ◌^◌, All, IsTrue, length, slice_index_or};
ghost use Rattle.rly_machine.specs.Map.{map_item, payloads_of};
ghost use Rattle.rly_machine.specs.Relocate.{state_with_relocated};
ghost use Rattle.rly_machine.specs.State.{has_hop, hop_at, live_line};
ghost use Rattle.rly_machine.specs.declared.hop.Item.{Item};
ghost use Rattle.rly_segment_checkpoint.specs.Checkpoint.{entry_spelled, hop_spelled, state_spelled};
ghost use Rattle.rly_segment_checkpoint.specs.Stored.{stored_length, stored_spelled};
ghost use Rattle.rly_segment_checkpoint.specs.Widths.{entry_width};
ghost use Rattle.rly_reclaim.specs.LiveRoom.{collected_state};
ghost use Rattle.rly_segment.specs.HeadAddresses.{stored_in_head, hop_in_head, state_in_head};
ghost use Rattle.rly_journal_relocate.specs.HelpersRelocation.{HasBytes, IsInline, blank_hop, collected_blank};
ghost use Rattle.rly_journal_relocate.specs.HelpersRelocation.{with_hop};
ghost use Rattle.rly_journal_relocate.specs.Relocation.{LiesThere, zeros_at};

use rly_core::{Geometry, HopId};
use rly_machine::{Content, Item, Machine};
use rly_reclaim::{live_at, segment_of};
use rly_segment::segment_place;
use rly_segment_checkpoint::{DeviceAddress, HeadForm, Stored};

/// The bytes of a head before the numbers of its peers: its gate, generation, length and number of accepted commands.
const HEAD_BYTES: u64 = 21;

/// The bytes of a peer's last number.
const PEER_BYTES: u64 = 8;

/// Sets the device addresses of a spool's payloads after the target's head, of that form, was written with the victim's
/// payloads inline. If `victim` is no segment, only inline payloads change. No payload's length changes, and no device
/// is read. Allocates nothing.
pub fn relocate_all(
    form: HeadForm,
    geometry: &Geometry,
    target: u64,
    victim: u64,
    machine: &mut Machine<Stored>,
)
    requires target { target < 256 }
    requires length { geometry.now.length < 2 ^ 31 }
    requires lies { All (LiesThere geometry.now) (payloads_of machine.old.state) }
    requires room { 13
        + length (state_spelled stored_length (stored_spelled form)
        (collected_state geometry.now victim zeros_at machine.old.state))
        ≤ geometry.now.length }
    ensures { machine.new.state
        ≡ state_in_head form geometry.now target (collected_state geometry.now victim zeros_at machine.old.state) }
{
    machine.law_sound();
    let peers = machine.lasts().len() as u64;
    let mut at = segment_place(geometry, target) + HEAD_BYTES + PEER_BYTES * peers;
    let count = machine.hops().len() as u16;
    for index in 0..count {
        at = relocate_hop(form, geometry, victim, machine, HopId(index + 1), at);
    }
}

/// Sets the device addresses of a hop's payloads in a head that has the hop at an offset, and returns the offset after
/// it.
fn relocate_hop(
    form: HeadForm,
    geometry: &Geometry,
    victim: u64,
    machine: &mut Machine<Stored>,
    hop: HopId,
    at: u64,
) -> u64
    requires length { 1 ≤ geometry.now.length }
    requires there { IsTrue (has_hop machine.old.state hop) }
    requires bytes { All (λ item. HasBytes item.payload) (live_line (hop_at machine.old.state hop)) }
    requires fits { at
        + length (hop_spelled stored_length (stored_spelled form)
        (blank_hop geometry.now victim (hop_at machine.old.state hop))) < 2 ^ 63 }
    ensures state { machine.new.state
        ≡ with_hop machine.old.state hop
        (hop_in_head form at (blank_hop geometry.now victim (hop_at machine.old.state hop))) }
    ensures next { result
        ≡ at + length (hop_spelled stored_length (stored_spelled form)
        (blank_hop geometry.now victim (hop_at machine.old.state hop))) }
{
    let mut next = at + form.hop_len();
    let count = live_count(machine, hop);
    for index in 0..count {
        next = relocate_item(form, geometry, victim, machine, hop, index, next);
    }
    next
}

/// Sets the device address of a payload in a head that has its entry at an offset, and returns the offset after the
/// entry.
fn relocate_item(
    form: HeadForm,
    geometry: &Geometry,
    victim: u64,
    machine: &mut Machine<Stored>,
    hop: HopId,
    index: usize,
    at: u64,
) -> u64
    requires length { 1 ≤ geometry.now.length }
    requires there { IsTrue (has_hop machine.old.state hop) }
    requires live { index < length (live_line (hop_at machine.old.state hop)) }
    requires bytes { (item : Item Stored) → item ≡ slice_index_or (live_line (hop_at machine.old.state hop)) index item
        → HasBytes item.payload }
    requires fits { at + 2 ^ 32 < 2 ^ 64 }
    ensures { (item : Item Stored) × (item ≡ slice_index_or (live_line (hop_at machine.old.state hop)) index item)
        × (machine.new.state
        ≡ state_with_relocated machine.old.state hop index
        (stored_in_head (at + entry_width form) (collected_blank geometry.now victim item.payload)))
        × (result ≡ at + length
        (entry_spelled stored_length (stored_spelled form) (map_item (collected_blank geometry.now victim) item))) }
{
    machine.law_sound();
    let payload = &live_item(machine, hop, index).payload;
    let length = payload.len() as u16;
    if !stands_inline(geometry, victim, payload) {
        return at + form.placed_len();
    }
    let start = at + form.entry_len();
    if length > 0 {
        machine.relocate(hop, index, Stored::Placed(DeviceAddress { start, length }));
    }
    start + u64::from(length)
}

/// Returns the number of live datagrams of a hop.
fn live_count(machine: &Machine<Stored>, hop: HopId) -> usize
    requires { IsTrue (has_hop machine.now.state hop) }
    ensures { result ≡ length (live_line (hop_at machine.now.state hop)) }
{
    machine.law_sound();
    let hop = &machine.hops()[hop.0 as usize - 1];
    hop.flight.len() + hop.queue.len()
}

/// Returns a live datagram of a hop; the index counts from the first in flight.
fn live_item(machine: &Machine<Stored>, hop: HopId, index: usize) -> &Item<Stored>
    requires there { IsTrue (has_hop machine.now.state hop) }
    requires live { index < length (live_line (hop_at machine.now.state hop)) }
    ensures { result.now ≡ slice_index_or (live_line (hop_at machine.now.state hop)) index result.now }
{
    live_at(&machine.hops()[hop.0 as usize - 1], index)
}

/// Returns true iff a payload is inline in a head that cleans the victim.
fn stands_inline(geometry: &Geometry, victim: u64, payload: &Stored) -> bool
    requires { 1 ≤ geometry.now.length }
    ensures { IsTrue result ↔ IsInline (collected_blank geometry.now victim payload.now) }
{
    match payload {
        Stored::Inline(_) => true,
        Stored::Placed(place) => segment_of(geometry, place.start) == victim,
    }
}
