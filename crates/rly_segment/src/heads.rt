ghost use Rattle.std.specs.Prelude.{All, ◌≡◌, ◌+◌, ◌<◌, ◌≤◌, ◌^◌, ◌++◌, ◌∷◌, [], ◌↔◌, IfOk, IsTrue, Option, Some};
ghost use Rattle.std.specs.Prelude.{is_ok, length, ℕ};
ghost use Rattle.byteorder.specs.Endian.{big_bytes};
ghost use Rattle.rly_segment_checkpoint.specs.Checkpoint.{IsOfForm, inline_form_of, spelled_by, state_spelled};
ghost use Rattle.rly_segment_checkpoint.specs.Forms.{HaveForms};
ghost use Rattle.rly_segment_checkpoint.specs.Widths.{mark_of};
ghost use Rattle.rly_core.specs.Bounds.{IsIn};
ghost use Rattle.rly_disk.specs.Trace.{Makes, Read};
ghost use Rattle.rly_gate.specs.Group.{StandsAt};
ghost use Rattle.rly_segment.specs.Answers.{IsReadHead, IsReadHeadOf};
ghost use Rattle.rly_segment.specs.Calls.{head_reads, reads_head};
ghost use Rattle.rly_segment.specs.Device.{IsLayout};
ghost use Rattle.rly_segment.specs.Heads.{IsHead, IsHeadOf, first_gate, gate_after, segment_place};

use crate::layout::{number_of_4, number_of_8, segment_place};
use rly_core::Geometry;
use rly_disk::{Disk, DiskFault};
use rly_gate::{ReadFault, fill, read_bytes};
use rly_machine::{Content, Machine, Payload};
use rly_reclaim::group_room;
use rly_segment_checkpoint::{DecodeFault, Form, HeadForm, read_state};
use std::alloc::Global;

/// The bytes of a head's generation and of its body's length, after its gate.
pub(crate) const START_BYTES: usize = 12;

/// The bytes of a head before its body.
const BODY_OFFSET: u64 = 13;

/// The content of a head, and the offset of the gate after it.
#[derive(Drop)]
pub struct Head<C: Content> {
    /// The number of the opening that wrote the head, counted from 1.
    pub generation: u64,
    /// The form in which it was read.
    pub form: HeadForm,
    /// Its state, in a machine.
    pub machine: Machine<C>,
    /// The offset of the gate of the first group.
    pub gate: u64,
}

/// The reason for a failed read of a head. The disk is unchanged.
#[derive(Clone, Copy, PartialEq, Eq)]
pub enum HeadFault {
    /// Memory allocation failed.
    OutOfMemory,
    /// The bytes after the gate are not the head of a sound state.
    Damaged,
    /// A read of the device failed.
    Device,
}

/// The fields before a head's body.
#[derive(Clone, Copy)]
struct Start {
    generation: u64,
    form: HeadForm,
    length: u32,
}

/// Reads the state of a segment's head, with every payload inline. Allocates at most the segment's length plus the
/// memory of the state.
pub fn read_head<D: Disk>(
    alloc: Global,
    disk: &mut D,
    geometry: &Geometry,
    segment: u64,
) -> Result<Head<Payload>, HeadFault>
    requires geometry { IsLayout geometry.now (D.state disk.old).size }
    requires segment { segment < geometry.now.segments }
    ensures head { IfOk result (λ head. IsHead head.form geometry.now segment head.generation head.machine.state) }
    ensures gate { IfOk result (λ head. head.gate ≡ first_gate head.form geometry.now segment head.machine.state) }
    ensures plain { IfOk result (λ head. IsOfForm head.form head.machine.state) }
    ensures read { (D.state disk.old).honest → IsReadHead (D.state disk.old).seen geometry.now segment result }
    ensures trace { (body : Option ℕ)
        × IfOk result (λ head. body
        ≡ Some (length (state_spelled length (spelled_by inline_form_of head.form) head.machine.state)))
        × Makes D.state (head_reads (segment_place geometry.now segment) body) (reads_head result) disk.old disk.new }
{
    read_head_of(alloc, disk, geometry, segment)
}

/// Reads the state of a segment's head, whose content has forms. Allocates at most the segment's length plus the memory
/// of the state.
pub fn read_head_of<D: Disk, C: Form>(
    alloc: Global,
    disk: &mut D,
    geometry: &Geometry,
    segment: u64,
) -> Result<Head<C>, HeadFault>
    requires geometry { IsLayout geometry.now (D.state disk.old).size }
    requires segment { segment < geometry.now.segments }
    ensures head { IfOk result
        (λ head. IsHeadOf C.length_of
        (spelled_by C.form head.form) geometry.now segment head.generation head.machine.state) }
    ensures gate { IfOk result
        (λ head. head.gate
        ≡ gate_after C.length_of (spelled_by C.form head.form) geometry.now segment head.machine.state) }
    ensures forms { IfOk result (λ head. All (HaveForms (C.has_form head.form)) head.machine.state.hops) }
    ensures plain { IfOk result (λ head. IsOfForm head.form head.machine.state) }
    ensures read { (D.state disk.old).honest
        → IsReadHeadOf C.length_of C.form C.has_form (D.state disk.old).seen geometry.now segment result }
    ensures trace { (body : Option ℕ)
        × IfOk result (λ head. body
        ≡ Some (length (state_spelled C.length_of (spelled_by C.form head.form) head.machine.state)))
        × Makes D.state (head_reads (segment_place geometry.now segment) body) (reads_head result) disk.old disk.new }
{
    let place = segment_place(geometry, segment);
    let Ok(start) = read_start(disk, place) else {
        return Err(HeadFault::Device);
    };
    let end = BODY_OFFSET + u64::from(start.length);
    if geometry.length < end + group_room(geometry.params.payload) {
        return Err(HeadFault::Damaged);
    }
    let body = match read_bytes(alloc, disk, place + BODY_OFFSET, start.length as usize) {
        Ok(body) => body,
        Err(ReadFault::OutOfMemory) => return Err(HeadFault::OutOfMemory),
        Err(ReadFault::Device) => return Err(HeadFault::Device),
    };
    let machine = match read_state(alloc, start.form, geometry.params, &body) {
        Ok(machine) => machine,
        Err(DecodeFault::Malformed) => return Err(HeadFault::Damaged),
        Err(DecodeFault::OutOfMemory) => return Err(HeadFault::OutOfMemory),
    };
    machine.law_sound();
    if !is_generation(start.generation, machine.seq()) {
        return Err(HeadFault::Damaged);
    }
    Ok(Head {
        generation: start.generation,
        form: start.form,
        machine,
        gate: place + end,
    })
}

/// Reads the generation, the form and the length after the gate of a head.
fn read_start<D: Disk>(disk: &mut D, place: u64) -> Result<Start, DiskFault>
    requires place_fits { place + 1 < 2 ^ 64 }
    requires room { place + 13 ≤ (D.state disk.old).size }
    ensures read { (D.state disk.old).honest
        → IfOk result (λ start. StandsAt (D.state disk.old).seen (place + 1)
        (big_bytes 8 start.generation ++ big_bytes 4 (mark_of start.form + start.length))) }
    ensures fits { IfOk result (λ start. (start.generation < 2 ^ 64) × (start.length < 2 ^ 31)) }
    ensures trace { Makes D.state (Read (place + 1) 12 ∷ []) (is_ok result) disk.old disk.new }
{
    let mut start = [0u8; START_BYTES];
    fill(disk, place + 1, &mut start)?;
    let (form, length) = HeadForm::of_length(number_of_4(&start[8..]));
    Ok(Start {
        generation: number_of_8(&start[..8]),
        form,
        length,
    })
}

/// Returns true iff a head with `seq` accepted commands may have this generation.
fn is_generation(generation: u64, seq: u64) -> bool
    ensures { IsTrue result ↔ IsIn 1 (seq + 1) generation }
{
    1 <= generation && generation - 1 <= seq
}
