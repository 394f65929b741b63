ghost use Rattle.std.specs.Prelude.{All, ◌≡◌, ◌++◌, ◌∷◌, [], ◌<◌, ◌≤◌, ◌^◌, IfOk, drop, length, vec_len};
ghost use Rattle.std.specs.Vec.{vec_capacity};
ghost use Rattle.byteorder.specs.Endian.{big_bytes};
ghost use Rattle.rly_segment_checkpoint.specs.Checkpoint.{spelled_by, state_spelled};
ghost use Rattle.rly_segment_checkpoint.specs.Forms.{HaveForms};
ghost use Rattle.rly_segment.specs.Heads.{head_spelled};

use crate::heads::START_BYTES;
use byteorder::{BigEndian, ByteOrder};
use rly_gate::CLOSED_GATE;
use rly_machine::Machine;
use rly_segment_checkpoint::{Form, HeadForm, append_state, most_len};
use std::alloc::{AllocError, Global};

/// Returns the bytes after a segment's gate: a head of the second form with the machine's state, and the closed gate of
/// the first group.
pub(crate) fn head_bytes<C: Form>(
    alloc: Global,
    generation: u64,
    machine: &Machine<C>,
) -> Result<Vec<u8>, AllocError>
    requires length { length (state_spelled C.length_of (spelled_by C.form HeadForm.Second) machine.now.state)
        < 2 ^ 31 }
    requires fits { All (HaveForms (C.has_form HeadForm.Second)) machine.now.state.hops }
    ensures { IfOk result
        (λ head. head.items
        ≡ head_spelled C.length_of (spelled_by C.form HeadForm.Second) generation machine.now.state ++ 0 ∷ []) }
{
    machine.law_sound();
    let room = most_len(machine) as usize;
    let mut head = Vec::with_capacity(alloc, START_BYTES + room + 1)?;
    head.extend_from_slice(&[0; START_BYTES])?;
    append_state(machine, &mut head);
    let length = head.len() - START_BYTES;
    let field = HeadForm::Second.length_field(length as u32);
    write_start(&mut head, generation, field);
    head.push(CLOSED_GATE)?;
    Ok(head)
}

/// Fills in a head before its body, where zeros are.
fn write_start(head: &mut [u8], generation: u64, count: u32)
    requires { START_BYTES ≤ length head.old }
    ensures { head.new ≡ (big_bytes 8 generation ++ big_bytes 4 count) ++ drop 12 head.old }
{
    head[..START_BYTES].copy_from_slice(&head_fields(generation, count));
}

/// Returns the bytes of a head before its body.
fn head_fields(generation: u64, length: u32) -> [u8; START_BYTES]
    ensures { result ≡ big_bytes 8 generation ++ big_bytes 4 length }
{
    let mut fields = [0; START_BYTES];
    BigEndian::write_u64(&mut fields, generation);
    BigEndian::write_u32(&mut fields[8..], length);
    fields
}
