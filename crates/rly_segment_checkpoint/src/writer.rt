ghost use Rattle.std.specs.Prelude.{◌≡◌, ◌≤◌, ◌<◌, ◌+◌, ◌*◌, ◌++◌, ◌∷◌, [], All, IsOk, OnErr, OnOk, length, map};
ghost use Rattle.std.specs.Prelude.{vec_len};
ghost use Rattle.std.specs.List.{AllByRecursion, flat_map};
ghost use Rattle.std.specs.Vec.{vec_capacity};
ghost use Rattle.byteorder.specs.Endian.{big_bytes};
ghost use Rattle.rly_machine.specs.Kept.{hop_state};
ghost use Rattle.rly_machine.specs.State.{live_bytes, live_items, live_line};
ghost use Rattle.rly_segment_checkpoint.specs.Checkpoint.{checkpoint_of, codel_of, entry_spelled, hop_spelled};
ghost use Rattle.rly_segment_checkpoint.specs.Checkpoint.{spelled_by, state_spelled};
ghost use Rattle.rly_segment_checkpoint.specs.Forms.{HaveForms};
ghost use Rattle.rly_segment_checkpoint.specs.HelpersFitting.{CodelFits, EntryFits, FitsBytes, HopFits};

use crate::form::{Form, append};
use crate::head_form::HeadForm;
use crate::sound::live_at;
use byteorder::{BigEndian, ByteOrder};
use rly_machine::{CodelState, Content, Hop, Item, Machine, Payload};
use std::alloc::AllocError;

/// The size in bytes of the number of accepted commands, and of a peer's last number.
const NUMBER_LENGTH: usize = 8;

/// The size in bytes of a hop's last time.
const MOMENT_LENGTH: usize = 7;

/// The size in bytes of CoDel's state.
const CODEL_LENGTH: usize = 27;

/// The size in bytes of a hop's counts.
const COUNTS_LENGTH: usize = 30;

/// The size in bytes of an entry before its form.
const ENTRY_HEAD: usize = 20;

/// The size in bytes of the shortest entry.
const ENTRY_LENGTH: u64 = 21;

/// The size in bytes of an entry by device address.
const PLACED_LENGTH: u64 = 26;

/// The size in bytes of a hop, without its entries.
const HOP_LENGTH: u64 = 64;

/// Returns the size in bytes of a spool's checkpoint.
pub fn checkpoint_len(machine: &Machine<Payload>) -> u64
    ensures { result ≡ length (checkpoint_of machine.now.state) }
{
    machine.law_sound();
    let params = machine.params();
    let peers = NUMBER_LENGTH as u64 * params.peers;
    let hops = HOP_LENGTH * params.hops;
    let entries = ENTRY_LENGTH * machine.item_count() + machine.byte_count();
    NUMBER_LENGTH as u64 + peers + hops + entries
}

/// Appends the checkpoint of a spool to `out`. Allocates only if `out` lacks the capacity; an `Err` leaves the bytes of
/// `out` unchanged.
pub fn write_checkpoint(machine: &Machine<Payload>, out: &mut Vec<u8>) -> Result<(), AllocError>
    ensures written { OnOk result (out.new.items ≡ out.old.items ++ checkpoint_of machine.now.state) }
    ensures err { OnErr result (out.new.items ≡ out.old.items) }
    ensures reserved { length out.old.items + length (checkpoint_of machine.now.state) ≤ vec_capacity out.old
        → IsOk result }
    ensures capacity { vec_capacity out.old ≤ vec_capacity out.new }
{
    out.reserve(checkpoint_len(machine) as usize)?;
    append_state(machine, out);
    Ok(())
}

/// Returns the maximum size in bytes of a spool's encoding: each payload inline plus a device address for each.
pub fn most_len<C: Form>(machine: &Machine<C>) -> u64
    ensures enough { length (state_spelled C.length_of (spelled_by C.form HeadForm.Second) machine.now.state) ≤ result }
    ensures bounded { let s = machine.now.state in
        result ≡ 8 + 8 * s.params.peers + 64 * s.params.hops + 26 * live_items s + live_bytes C.length_of s }
{
    C::law_forms();
    machine.law_sound();
    let params = machine.params();
    let peers = NUMBER_LENGTH as u64 * params.peers;
    let hops = HOP_LENGTH * params.hops;
    let entries = PLACED_LENGTH * machine.item_count() + machine.byte_count();
    NUMBER_LENGTH as u64 + peers + hops + entries
}

/// Appends the encoding of a spool, with the capacity already reserved. Allocates nothing.
#[tactic(auto, unfolding(crate::specs::Checkpoint::state_spelled))]
pub fn append_state<C: Form>(machine: &Machine<C>, out: &mut Vec<u8>)
    requires fits { All (HaveForms (C.has_form HeadForm.Second)) machine.now.state.hops }
    requires room { vec_len out.old
        + length (state_spelled C.length_of (spelled_by C.form HeadForm.Second) machine.now.state)
        ≤ vec_capacity out.old }
    ensures items { out.new.items
        ≡ out.old.items ++ state_spelled C.length_of (spelled_by C.form HeadForm.Second) machine.now.state }
    ensures capacity { vec_capacity out.old ≤ vec_capacity out.new }
{
    machine.law_sound();
    append_number(machine.seq(), out);
    append_numbers(machine.lasts(), out);
    append_hops(machine.hops(), out);
}

/// Appends a number, with the capacity already reserved.
fn append_number(number: u64, out: &mut Vec<u8>)
    requires { vec_len out.old + 8 ≤ vec_capacity out.old }
    ensures items { out.new.items ≡ out.old.items ++ big_bytes 8 number }
    ensures len { vec_len out.new ≡ vec_len out.old + 8 }
    ensures capacity { vec_capacity out.old ≤ vec_capacity out.new }
{
    let mut bytes = [0; NUMBER_LENGTH];
    BigEndian::write_u64(&mut bytes, number);
    append(&bytes, out);
}

/// Appends a hop's last time, with the capacity already reserved.
fn append_moment(moment: u64, out: &mut Vec<u8>)
    requires fits { FitsBytes 7 moment }
    requires room { vec_len out.old + 7 ≤ vec_capacity out.old }
    ensures items { out.new.items ≡ out.old.items ++ big_bytes 7 moment }
    ensures len { vec_len out.new ≡ vec_len out.old + 7 }
    ensures capacity { vec_capacity out.old ≤ vec_capacity out.new }
{
    let mut bytes = [0; MOMENT_LENGTH];
    BigEndian::write_uint(&mut bytes, moment, 7);
    append(&bytes, out);
}

/// Appends numbers, with the capacity already reserved.
fn append_numbers(numbers: &[u64], out: &mut Vec<u8>)
    requires { vec_len out.old + length (flat_map (big_bytes 8) numbers.now) ≤ vec_capacity out.old }
    ensures items { out.new.items ≡ out.old.items ++ flat_map (big_bytes 8) numbers.now }
    ensures len { vec_len out.new ≡ vec_len out.old + length (flat_map (big_bytes 8) numbers.now) }
    ensures capacity { vec_capacity out.old ≤ vec_capacity out.new }
{
    for number in numbers {
        append_number(*number, out);
    }
}

/// Appends hops, with the capacity already reserved.
fn append_hops<C: Form>(hops: &[Hop<C>], out: &mut Vec<u8>)
    requires fit { All (HopFits HeadForm.Second C.length_of (C.has_form HeadForm.Second)) (map hop_state hops.now) }
    requires room { vec_len out.old
        + length (flat_map (hop_spelled C.length_of (spelled_by C.form HeadForm.Second)) (map hop_state hops.now))
        ≤ vec_capacity out.old }
    ensures items { out.new.items
        ≡ out.old.items ++ flat_map (hop_spelled C.length_of (spelled_by C.form HeadForm.Second))
        (map hop_state hops.now) }
    ensures capacity { vec_capacity out.old ≤ vec_capacity out.new }
{
    for hop in hops {
        append_hop(hop, out);
    }
}

/// Appends a hop, with the capacity already reserved.
fn append_hop<C: Form>(hop: &Hop<C>, out: &mut Vec<u8>)
    requires fits { HopFits HeadForm.Second C.length_of (C.has_form HeadForm.Second) (hop_state hop.now) }
    requires room { vec_len out.old
        + length (hop_spelled C.length_of (spelled_by C.form HeadForm.Second) (hop_state hop.now))
        ≤ vec_capacity out.old }
    ensures items { out.new.items
        ≡ out.old.items ++ hop_spelled C.length_of (spelled_by C.form HeadForm.Second) (hop_state hop.now) }
    ensures len { vec_len out.new
        ≡ vec_len out.old + length (hop_spelled C.length_of (spelled_by C.form HeadForm.Second) (hop_state hop.now)) }
    ensures capacity { vec_capacity out.old ≤ vec_capacity out.new }
{
    append_moment(hop.moment, out);
    append(&codel_bytes(&hop.codel), out);
    append(&counts_bytes(hop), out);
    append_live(hop, out);
}

/// Returns the bytes of CoDel's state.
#[tactic(auto, unfolding(crate::specs::Checkpoint::codel_of))]
fn codel_bytes(codel: &CodelState) -> [u8; CODEL_LENGTH]
    requires { CodelFits HeadForm.Second codel.now }
    ensures { result ≡ codel_of HeadForm.Second codel.now }
{
    let mut bytes = [0; CODEL_LENGTH];
    BigEndian::write_uint(&mut bytes, codel.first_above_time, 7);
    BigEndian::write_uint(&mut bytes[7..], codel.drop_next, 7);
    BigEndian::write_uint(&mut bytes[14..], codel.count, 6);
    BigEndian::write_uint(&mut bytes[20..], codel.lastcount, 6);
    bytes[26] = u8::from(codel.dropping);
    bytes
}

/// Returns the bytes of a hop's counts: datagrams taken, dropped, released and expired, those in flight, and those that
/// wait.
fn counts_bytes<C: Form>(hop: &Hop<C>) -> [u8; COUNTS_LENGTH]
    requires { HopFits HeadForm.Second C.length_of (C.has_form HeadForm.Second) (hop_state hop.now) }
    ensures { let h = hop_state hop.now in result ≡ big_bytes 6 h.taken ++ big_bytes 6 h.dropped
        ++ big_bytes 6 h.released ++ big_bytes 6 h.expired
        ++ big_bytes 2 (length h.flight) ++ big_bytes 4 (length h.queue) }
{
    let mut bytes = [0; COUNTS_LENGTH];
    BigEndian::write_uint(&mut bytes, hop.taken, 6);
    BigEndian::write_uint(&mut bytes[6..], hop.dropped, 6);
    BigEndian::write_uint(&mut bytes[12..], hop.released, 6);
    BigEndian::write_uint(&mut bytes[18..], hop.expired, 6);
    BigEndian::write_u16(&mut bytes[24..], hop.flight.len() as u16);
    BigEndian::write_u32(&mut bytes[26..], hop.queue.len() as u32);
    bytes
}

/// Appends the entries of the datagrams in flight and of those that wait, with the capacity already reserved.
fn append_live<C: Form>(hop: &Hop<C>, out: &mut Vec<u8>)
    requires fit { AllByRecursion (EntryFits HeadForm.Second C.length_of (C.has_form HeadForm.Second))
        (live_line (hop_state hop.now)) }
    requires room { vec_len out.old
        + length (flat_map (entry_spelled C.length_of (spelled_by C.form HeadForm.Second))
        (live_line (hop_state hop.now)))
        ≤ vec_capacity out.old }
    ensures items { out.new.items
        ≡ out.old.items ++ flat_map (entry_spelled C.length_of (spelled_by C.form HeadForm.Second))
        (live_line (hop_state hop.now)) }
    ensures len { vec_len out.new
        ≡ vec_len out.old
        + length (flat_map (entry_spelled C.length_of (spelled_by C.form HeadForm.Second))
        (live_line (hop_state hop.now))) }
    ensures capacity { vec_capacity out.old ≤ vec_capacity out.new }
{
    let count = hop.flight.len() + hop.queue.len();
    for index in 0..count {
        append_entry(live_at(hop, index), out);
    }
}

/// Appends an entry, with the capacity already reserved.
fn append_entry<C: Form>(item: &Item<C>, out: &mut Vec<u8>)
    requires fits { EntryFits HeadForm.Second C.length_of (C.has_form HeadForm.Second) item.now }
    requires room { vec_len out.old + length (entry_spelled C.length_of (spelled_by C.form HeadForm.Second) item.now)
        ≤ vec_capacity out.old }
    ensures items { out.new.items
        ≡ out.old.items ++ entry_spelled C.length_of (spelled_by C.form HeadForm.Second) item.now }
    ensures len { vec_len out.new
        ≡ vec_len out.old + length (entry_spelled C.length_of (spelled_by C.form HeadForm.Second) item.now) }
    ensures capacity { vec_capacity out.old ≤ vec_capacity out.new }
{
    let head = entry_head(item);
    append(&head, out);
    item.payload.append_form(out);
}

/// Returns an entry before its form.
fn entry_head<C: Form>(item: &Item<C>) -> [u8; ENTRY_HEAD]
    requires { EntryFits HeadForm.Second C.length_of (C.has_form HeadForm.Second) item.now }
    ensures { result ≡ big_bytes 6 item.now.id ++ big_bytes 7 item.now.stamp ++ big_bytes 5 item.now.limit
        ++ big_bytes 2 (C.length_of item.now.payload) }
{
    let mut bytes = [0; ENTRY_HEAD];
    BigEndian::write_uint(&mut bytes, item.id, 6);
    BigEndian::write_uint(&mut bytes[6..], item.stamp, 7);
    BigEndian::write_uint(&mut bytes[13..], item.limit, 5);
    BigEndian::write_u16(&mut bytes[18..], item.payload.len() as u16);
    bytes
}
