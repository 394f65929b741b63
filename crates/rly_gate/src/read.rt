ghost use Rattle.std.specs.Prelude.{◌≡◌, ◌≢◌, ◌+◌, ◌<◌, ◌≤◌, ◌↔◌, ◌∷◌, [], ℕ, Err, IfOk, IfSome, IsTrue, OnErr, OnOk};
ghost use Rattle.std.specs.Prelude.{drop, is_ok, length, take, vec_capacity, vec_len};
ghost use Rattle.byteorder.specs.Endian.{big_bytes};
ghost use Rattle.rly_disk.specs.Trace.{Makes, Read};
ghost use Rattle.rly_gate.specs.Calls.{reads_succeeded, bytes_reads, group_reads, group_reads_succeeded, length_reads};
ghost use Rattle.rly_gate.specs.Group.{IsOpen};
ghost use Rattle.rly_gate.specs.GroupReads.{HoldsBytes, IsReadGroup};
ghost use Rattle.rly_gate.specs.HelpersGroupReads.{IsReadLength};

use crate::gate::{FRAME_OVERHEAD, LENGTH_BYTES, OPEN_GATE};
use byteorder::{BigEndian, ByteOrder};
use rly_disk::{Disk, DiskFault};
use std::alloc::{AllocError, Global};

/// The reason for a failed read of bytes. The disk is unchanged.
#[derive(Clone, Copy, PartialEq, Eq)]
pub enum ReadFault {
    /// Memory allocation failed.
    OutOfMemory,
    /// A read of the device failed.
    Device,
}

/// The reason for a failed read of a group. The disk is unchanged.
#[derive(Clone, Copy, PartialEq, Eq)]
pub enum GroupFault {
    /// Memory allocation failed.
    OutOfMemory,
    /// The gate is open, but the group and the gate after it don't end before the limit.
    Damaged,
    /// A read of the device failed.
    Device,
}

/// Reads the body of the group at a gate; `None` if the gate is closed. The group and the gate after it have to lie
/// before `end`.
pub fn read_group<D: Disk>(
    alloc: Global,
    disk: &mut D,
    at: u64,
    end: u64,
) -> Result<Option<Vec<u8>>, GroupFault>
    requires gate { at < end }
    requires end { end ≤ (D.state disk.old).size }
    ensures read { (D.state disk.old).honest → IsReadGroup (D.state disk.old).seen at end result }
    ensures within { IfOk result (λ found. IfSome found (λ body. at + 6 + vec_len body ≤ end)) }
    ensures memory { (D.state disk.old).honest → result ≡ Err GroupFault.OutOfMemory
        → HoldsBytes (D.state disk.old).seen at end }
    ensures reserved { IfOk result (λ found. IfSome found (λ body. vec_capacity body ≡ vec_len body)) }
    ensures trace { (n : ℕ)
        × Makes D.state (group_reads at end n result) (group_reads_succeeded result) disk.old disk.new }
{
    let Ok(opened) = is_open(disk, at) else {
        return Err(GroupFault::Device);
    };
    if !opened {
        return Ok(None);
    }
    let length = read_length(disk, at, end)?;
    match read_bytes(alloc, disk, at + 1 + LENGTH_BYTES as u64, length) {
        Ok(body) => Ok(Some(body)),
        Err(ReadFault::OutOfMemory) => Err(GroupFault::OutOfMemory),
        Err(ReadFault::Device) => Err(GroupFault::Device),
    }
}

/// Returns the body's length of the group at an open gate, if that group and the gate after it lie before the end.
fn read_length<D: Disk>(disk: &mut D, at: u64, end: u64) -> Result<usize, GroupFault>
    requires gate { at < end }
    requires end { end ≤ (D.state disk.old).size }
    ensures read { (D.state disk.old).honest → IsReadLength (D.state disk.old).seen at end result }
    ensures memory { result ≢ Err GroupFault.OutOfMemory }
    ensures trace { Makes D.state (length_reads at end) (group_reads_succeeded result) disk.old disk.new }
    ensures within { IfOk result (λ n. at + 6 + n ≤ end) }
{
    let room = end - at - 1;
    if room < FRAME_OVERHEAD {
        return Err(GroupFault::Damaged);
    }
    let mut field = [0u8; LENGTH_BYTES];
    let Ok(()) = fill(disk, at + 1, &mut field) else {
        return Err(GroupFault::Device);
    };
    let length = length_in(&field);
    if u64::from(length) > room - FRAME_OVERHEAD {
        return Err(GroupFault::Damaged);
    }
    Ok(length as usize)
}

/// Decodes a length field.
fn length_in(field: &[u8; LENGTH_BYTES]) -> u32
    ensures { big_bytes 4 result ≡ field.now }
{
    BigEndian::read_u32(field)
}

/// Returns true iff the gate at an offset is open.
pub fn is_open<D: Disk>(disk: &mut D, at: u64) -> Result<bool, DiskFault>
    requires { at + 1 ≤ (D.state disk.old).size }
    ensures read { (D.state disk.old).honest
        → IfOk result (λ opened. IsTrue opened ↔ IsOpen (D.state disk.old).seen at) }
    ensures trace { Makes D.state (Read at 1 ∷ []) (is_ok result) disk.old disk.new }
{
    let mut gate = [0u8; 1];
    disk.read_at(at, &mut gate)?;
    Ok(gate[0] == OPEN_GATE)
}

/// Reads `count` bytes at an offset into new memory.
pub fn read_bytes<D: Disk>(
    alloc: Global,
    disk: &mut D,
    place: u64,
    count: usize,
) -> Result<Vec<u8>, ReadFault>
    requires { place + count ≤ (D.state disk.old).size }
    ensures read { (D.state disk.old).honest
        → IfOk result (λ bytes. bytes.items ≡ take count (drop place (D.state disk.old).seen)) }
    ensures length { IfOk result (λ bytes. length bytes.items ≡ count) }
    ensures memory { result ≡ Err ReadFault.OutOfMemory → 0 < count }
    ensures reserved { IfOk result (λ bytes. vec_capacity bytes ≡ count) }
    ensures trace { Makes D.state (bytes_reads place count result) (reads_succeeded result) disk.old disk.new }
{
    let Ok(mut bytes) = zeroes(alloc, count) else {
        return Err(ReadFault::OutOfMemory);
    };
    let Ok(()) = fill(disk, place, &mut bytes) else {
        return Err(ReadFault::Device);
    };
    Ok(bytes)
}

/// Returns `count` zero bytes in memory of that size; allocates nothing for 0.
fn zeroes(alloc: Global, count: usize) -> Result<Vec<u8>, AllocError>
    ensures length { IfOk result (λ bytes. length bytes.items ≡ count) }
    ensures memory { OnErr result (0 < count) }
    ensures reserved { IfOk result (λ bytes. vec_capacity bytes ≡ count) }
{
    let mut bytes = Vec::with_capacity(alloc, count)?;
    for _place in 0..count {
        bytes.push_reserved(0);
    }
    Ok(bytes)
}

/// Reads from an offset on until the buffer is full.
pub fn fill<D: Disk>(disk: &mut D, place: u64, buffer: &mut [u8]) -> Result<(), DiskFault>
    requires { place + length buffer.old ≤ (D.state disk.old).size }
    ensures read { (D.state disk.old).honest
        → OnOk result (buffer.new ≡ take (length buffer.old) (drop place (D.state disk.old).seen)) }
    ensures trace { Makes D.state (Read place (length buffer.old) ∷ []) (is_ok result) disk.old disk.new }
{
    disk.read_at(place, buffer)
}
