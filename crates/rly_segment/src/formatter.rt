ghost use Rattle.std.specs.Prelude.{◌^◌, ◌≡◌, ◌+◌, ◌<◌, ◌≤◌, ◌↔◌, ◌∷◌, ◌++◌, [], Bool, Err, IfOk, IsTrue, OnOk, is_ok};
ghost use Rattle.std.specs.Prelude.{length};
ghost use Rattle.rly_disk.specs.DiskModel.{LeavesOnly, Settled};
ghost use Rattle.rly_disk.specs.Trace.{Makes};
ghost use Rattle.rly_gate.specs.Group.{IsClosed};
ghost use Rattle.rly_core.specs.Limits.{IsWithinLimits};
ghost use Rattle.rly_machine.specs.State.{new_state};
ghost use Rattle.rly_segment.specs.Calls.{closing_gates, fill_calls, format_calls, format_calls_succeeded};
ghost use Rattle.rly_segment.specs.Calls.{whole_format_calls, new_head};
ghost use Rattle.rly_segment.specs.Device.{IsLayout, header_of};
ghost use Rattle.rly_segment.specs.Formatted.{IsFormatted, IsFormatting, IsSameBeside};
ghost use Rattle.rly_segment.specs.Heads.{head_of};
ghost use Rattle.rly_segment.specs.HelpersWriting.{Formats, limits_of, shape_of};

use crate::head_bytes::head_bytes;
use crate::header::{DEVICE_TEXT, VERSION, is_layout};
use crate::layout::{FIRST_SEGMENT, segment_place};
use crate::opener::close_gate;
use byteorder::{BigEndian, ByteOrder};
use rly_core::{Geometry, Params};
use rly_disk::{Disk, DiskFault};
use rly_gate::{CLOSED_GATE, OPEN_GATE, is_open, settle};
use rly_machine::{Machine, Payload};
use std::alloc::{AllocError, Global};

/// The bytes of the header after its gate.
const FIELDS_LENGTH: usize = SHAPE_LENGTH + LIMITS_LENGTH;

/// The bytes of the magic text, the version, the counts and the segments' length.
const SHAPE_LENGTH: usize = 22;

/// The bytes of the following fields.
const LIMITS_LENGTH: usize = 30;

/// The reason for a failed format.
#[derive(Clone, Copy, PartialEq, Eq)]
pub enum FormatFault {
    /// Memory allocation failed for the first head. The disk is unchanged.
    OutOfMemory,
    /// The geometry is outside its limits, or the device is too short for it. The disk is unchanged.
    BadGeometry,
    /// A call of the device failed.
    Device,
}

/// Makes a new device without datagrams. A crash at any moment of the call leaves the old device, none, or the new one.
/// Bytes after the header's fields and after the last segment are unchanged.
pub fn format<D: Disk>(alloc: Global, disk: &mut D, geometry: &Geometry) -> Result<(), FormatFault>
    ensures geometry { result ≡ Err FormatFault.BadGeometry ↔ ¬ IsLayout geometry.now (D.state disk.old).size }
    ensures any_moment { Settled (D.state disk.old)
        → LeavesOnly (D.state disk.old) (D.state disk.new) (IsFormatting geometry.now (D.state disk.old).seen) }
    ensures beside { Settled (D.state disk.old)
        → LeavesOnly (D.state disk.old) (D.state disk.new) (IsSameBeside geometry.now (D.state disk.old).seen) }
    ensures ok { Settled (D.state disk.old) → OnOk result (Settled (D.state disk.new)) }
    ensures formatted { Settled (D.state disk.old) → OnOk result (IsFormatted geometry.now (D.state disk.new).seen) }
    ensures trace { (closed : Bool) × ((D.state disk.old).honest → (IsTrue closed ↔ IsClosed (D.state disk.old).seen 0))
        × Makes D.state (format_calls result (whole_format_calls geometry.now closed (new_head geometry.now)))
        (format_calls_succeeded result) disk.old disk.new }
{
    if !is_layout(geometry, disk.size()) {
        return Err(FormatFault::BadGeometry);
    }
    let Ok(head) = new_head(alloc, geometry) else {
        return Err(FormatFault::OutOfMemory);
    };
    match write_device(disk, geometry, &head) {
        Ok(()) => Ok(()),
        Err(_) => Err(FormatFault::Device),
    }
}

/// Returns the bytes after the first segment's gate in a new device.
fn new_head(alloc: Global, geometry: &Geometry) -> Result<Vec<u8>, AllocError>
    requires { IsWithinLimits geometry.now.params }
    ensures { IfOk result (λ head. head.items ≡ head_of 1 (new_state geometry.now.params) ++ 0 ∷ []) }
{
    let machine: Machine<Payload> = Machine::new(alloc, geometry.params)?;
    head_bytes(alloc, 1, &machine)
}

/// Makes a new device, with these bytes after the first segment's gate.
fn write_device<D: Disk>(disk: &mut D, geometry: &Geometry, head: &[u8]) -> Result<(), DiskFault>
    requires geometry { IsLayout geometry.now (D.state disk.old).size }
    requires head { head.now ≡ head_of 1 (new_state geometry.now.params) ++ 0 ∷ [] }
    ensures { Formats D.state geometry.now head.now (is_ok result) disk.old disk.new }
{
    let opened = is_open(disk, 0)?;
    close_gate(disk, 0, !opened)?;
    write_contents(disk, geometry, head)?;
    settle(disk, 0, &[OPEN_GATE])
}

/// Writes all of a new device except the header's gate, which stays closed.
fn write_contents<D: Disk>(disk: &mut D, geometry: &Geometry, head: &[u8]) -> Result<(), DiskFault>
    requires geometry { IsLayout geometry.now (D.state disk.old).size }
    requires room { 1 + length head.now ≤ geometry.now.length }
    ensures { Makes D.state (fill_calls geometry.now head.now) (is_ok result) disk.old disk.new }
{
    close_gates(disk, geometry)?;
    settle(disk, FIRST_SEGMENT + 1, head)?;
    settle(disk, 1, &header_fields(geometry))?;
    settle(disk, FIRST_SEGMENT, &[OPEN_GATE])
}

/// Closes the gates of all segments, one at a time. The header's gate is closed, so a torn write of a gate does no
/// harm.
fn close_gates<D: Disk>(disk: &mut D, geometry: &Geometry) -> Result<(), DiskFault>
    requires { IsLayout geometry.now (D.state disk.old).size }
    ensures { Makes D.state (closing_gates geometry.now geometry.now.segments) (is_ok result) disk.old disk.new }
{
    for segment in 0..geometry.segments {
        settle(disk, segment_place(geometry, segment), &[CLOSED_GATE])?;
    }
    Ok(())
}

/// Returns the bytes after the header's gate.
fn header_fields(geometry: &Geometry) -> [u8; FIELDS_LENGTH]
    requires params { IsWithinLimits geometry.now.params }
    requires segments { geometry.now.segments < 2 ^ 16 }
    requires length { geometry.now.length < 2 ^ 32 }
    ensures { result ≡ header_of geometry.now }
{
    let mut fields = [0; FIELDS_LENGTH];
    fields[..SHAPE_LENGTH].copy_from_slice(&shape_fields(geometry));
    fields[SHAPE_LENGTH..].copy_from_slice(&limit_fields(&geometry.params));
    fields
}

/// Returns the magic text, the version, and the counts.
fn shape_fields(geometry: &Geometry) -> [u8; SHAPE_LENGTH]
    requires params { IsWithinLimits geometry.now.params }
    requires segments { geometry.now.segments < 2 ^ 16 }
    requires length { geometry.now.length < 2 ^ 32 }
    ensures { result ≡ shape_of geometry.now }
{
    let mut fields = [0; SHAPE_LENGTH];
    fields[..8].copy_from_slice(&DEVICE_TEXT);
    BigEndian::write_u16(&mut fields[8..], VERSION);
    BigEndian::write_u16(&mut fields[10..], geometry.params.hops as u16);
    BigEndian::write_u16(&mut fields[12..], geometry.params.peers as u16);
    BigEndian::write_u16(&mut fields[14..], geometry.params.window as u16);
    BigEndian::write_u16(&mut fields[16..], geometry.segments as u16);
    BigEndian::write_u32(&mut fields[18..], geometry.length as u32);
    fields
}

/// Returns the limits of the spool.
fn limit_fields(params: &Params) -> [u8; LIMITS_LENGTH]
    requires { IsWithinLimits params.now }
    ensures { result ≡ limits_of params.now }
{
    let mut fields = [0; LIMITS_LENGTH];
    BigEndian::write_u32(&mut fields, params.items as u32);
    BigEndian::write_u32(&mut fields[4..], params.bytes as u32);
    BigEndian::write_u32(&mut fields[8..], params.maxpacket as u32);
    BigEndian::write_u64(&mut fields[12..], params.target);
    BigEndian::write_u64(&mut fields[20..], params.interval);
    BigEndian::write_u16(&mut fields[28..], params.payload as u16);
    fields
}
