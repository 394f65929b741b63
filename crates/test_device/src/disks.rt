//! The disks through their trait, as the crates above use them.
ghost use Rattle.std.specs.Prelude.{◌≤◌, ◌+◌, IsTrue};

mod client;
mod fault_disk;
mod mem;

use rly_disk::{Disk, DiskFault, MemDisk};
use std::alloc::Global;
use std::process::Abort;

// True iff a range of `len` bytes lies on the disk.
fn fits<D: Disk>(disk: &D, place: u64, len: usize) -> bool
    ensures { IsTrue result → place + len ≤ (D.state disk.now).size }
{
    let size = disk.size();
    place <= size && len as u64 <= size - place
}

fn put<D: Disk>(disk: &mut D, place: u64, bytes: &[u8]) -> Result<(), DiskFault> {
    if !fits(disk, place, bytes.len()) {
        return Err(DiskFault);
    }
    disk.write_at(place, bytes)
}

// Reads into a buffer, or fails.
fn get<R: Abort, D: Disk>(
    rt: &R,
    disk: &mut D,
    place: u64,
    buffer: &mut [u8],
) -> Result<(), DiskFault> {
    assert!(rt; fits(disk, place, buffer.len()));
    disk.read_at(place, buffer)
}

// A read at the offset returns these bytes.
fn expect_read<R: Abort, D: Disk>(rt: &R, alloc: Global, disk: &mut D, place: u64, bytes: &[u8]) {
    let mut buffer = vec![in alloc; 0; bytes.len()].expect(rt, "memory");
    let outcome = get(rt, disk, place, &mut buffer);
    expect!(*rt; outcome.is_ok() && buffer.as_slice() == bytes, place);
}

// Returns the counters: calls, failures, syncs, failed reads.
fn counts<D: Disk>(disk: &D) -> [u64; 4] {
    [
        disk.calls(),
        disk.failures(),
        disk.syncs(),
        disk.failed_reads(),
    ]
}

fn mem_disk<R: Abort>(rt: &R, alloc: Global, bytes: &[u8]) -> MemDisk {
    MemDisk::new(alloc, bytes.to_vec(alloc).expect(rt, "memory"))
}
