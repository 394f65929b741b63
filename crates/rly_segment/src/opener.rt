ghost use Rattle.std.specs.Prelude.{All, ◌^◌, ◌≡◌, ◌+◌, ◌<◌, ◌≤◌, ◌∷◌, ◌++◌, [], IfOk, is_ok, length};
ghost use Rattle.rly_segment_checkpoint.specs.Checkpoint.{spelled_by};
ghost use Rattle.rly_segment_checkpoint.specs.Forms.{HaveForms};
ghost use Rattle.rly_segment_checkpoint.specs.declared.head_form.HeadForm.TheVariants.{Second};
ghost use Rattle.rly_disk.specs.Trace.{Makes};
ghost use Rattle.rly_segment.specs.Calls.{close_calls, opening_calls, opening_calls_succeeded, replace_calls};
ghost use Rattle.rly_segment.specs.Device.{IsLayout};
ghost use Rattle.rly_segment.specs.Heads.{IsHeadOf, gate_after, head_spelled, segment_place};

use crate::head_bytes::head_bytes;
use crate::layout::segment_place;
use rly_core::Geometry;
use rly_disk::{Disk, DiskFault};
use rly_gate::{CLOSED_GATE, OPEN_GATE, settle};
use rly_machine::Machine;
use rly_segment_checkpoint::Form;
use std::alloc::Global;

/// A segment to open.
#[derive(Clone, Copy, PartialEq, Eq)]
pub struct Target {
    /// Its number.
    pub segment: u64,
    /// True iff its gate is closed.
    pub closed: bool,
}

/// The reason for a failed opening.
#[derive(Clone, Copy, PartialEq, Eq)]
pub enum OpeningFault {
    /// Memory allocation failed for the head. The disk is unchanged.
    OutOfMemory,
    /// A call of the device failed.
    Device,
}

/// Opens a segment: writes a head of the second form with the machine's state, and a closed gate after it, and returns
/// that gate's offset. `law_opening` states the effect of a crash at any moment of the call.
pub fn open_segment<D: Disk, C: Form>(
    alloc: Global,
    disk: &mut D,
    geometry: &Geometry,
    target: Target,
    generation: u64,
    machine: &Machine<C>,
) -> Result<u64, OpeningFault>
    requires geometry { IsLayout geometry.now (D.state disk.old).size }
    requires target { target.segment < geometry.now.segments }
    requires head { IsHeadOf C.length_of
        (spelled_by C.form Second) geometry.now target.segment generation machine.now.state }
    // Each number of the head fits its field: those of a sound state do, and the content of the payloads has forms.
    requires fits { All (HaveForms (C.has_form Second)) machine.now.state.hops }
    ensures gate { IfOk result
        (λ gate. gate ≡ gate_after C.length_of
        (spelled_by C.form Second) geometry.now target.segment machine.now.state) }
    ensures trace { Makes D.state
        (opening_calls result (replace_calls (segment_place geometry.now target.segment) target.closed
        (head_spelled C.length_of (spelled_by C.form Second) generation machine.now.state ++ 0 ∷ [])))
        (opening_calls_succeeded result) disk.old disk.new }
{
    let place = segment_place(geometry, target.segment);
    let Ok(behind) = head_bytes(alloc, generation, machine) else {
        return Err(OpeningFault::OutOfMemory);
    };
    match replace(disk, place, target.closed, &behind) {
        Ok(()) => Ok(place + behind.len() as u64),
        Err(_) => Err(OpeningFault::Device),
    }
}

/// Writes bytes after a gate, which is closed before that and opened after it.
fn replace<D: Disk>(disk: &mut D, place: u64, closed: bool, behind: &[u8]) -> Result<(), DiskFault>
    requires place { place + 1 < 2 ^ 64 }
    requires room { place + 1 + length behind.now ≤ (D.state disk.old).size }
    ensures { Makes D.state (replace_calls place closed behind.now) (is_ok result) disk.old disk.new }
{
    close_gate(disk, place, closed)?;
    settle(disk, place + 1, behind)?;
    settle(disk, place, &[OPEN_GATE])
}

/// Closes a gate. A closed gate is not written: a crash within that write could open it.
pub(crate) fn close_gate<D: Disk>(disk: &mut D, place: u64, closed: bool) -> Result<(), DiskFault>
    requires { place + 1 ≤ (D.state disk.old).size }
    ensures { Makes D.state (close_calls place closed) (is_ok result) disk.old disk.new }
{
    if closed {
        settle(disk, place, &[])
    } else {
        settle(disk, place, &[CLOSED_GATE])
    }
}
