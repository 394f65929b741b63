//! A device in memory.

use rly_core::{Geometry, Params};
use rly_disk::{After, Disk, FaultDisk, MemDisk};
use rly_journal::Journal;
use rly_segment::format;
use std::alloc::Global;
use std::process::Abort;

/// Two segments of the minimum length, of which 400 takes of one byte fill no more than the first.
pub(super) const DEVICE: Geometry = Geometry {
    params: Params {
        hops: 1,
        bytes: 4_096,
        ..Params::DEFAULT
    },
    segments: 2,
    length: 110_148,
};

/// 64 hops and peers, and a window of 64, on two segments with more room than the minimum.
pub(super) const WIDE: Geometry = Geometry {
    params: Params {
        hops: 64,
        peers: 64,
        window: 64,
        bytes: 4_096,
        ..Params::DEFAULT
    },
    segments: 2,
    length: 400_000,
};

/// A new device of a geometry: 64 bytes, and its two segments.
pub(super) fn device<R: Abort>(rt: &R, alloc: Global, geometry: &Geometry) -> MemDisk {
    let size = geometry.length.saturating_mul(2).saturating_add(64);
    let bytes = Vec::from_elem(alloc, 0u8, size as usize).expect(rt, "memory");
    let mut disk = MemDisk::new(alloc, bytes);
    let formatted = format(alloc, &mut disk, geometry);
    expect!(*rt; formatted.is_ok());
    disk
}

/// The journal on a disk, if it opens.
pub(super) fn opened<D: Disk + Drop>(alloc: Global, disk: D) -> Option<Journal<D>> {
    Journal::open(alloc, disk).ok()
}

/// The journal on a new device of a geometry.
pub(super) fn new_journal<R: Abort>(
    rt: &R,
    alloc: Global,
    geometry: &Geometry,
) -> Journal<MemDisk> {
    opened(alloc, device(rt, alloc, geometry)).expect(rt, "a journal")
}

/// The journal on a new `DEVICE` whose call of this number fails, and all after it, if it opens.
pub(super) fn failing<R: Abort>(
    rt: &R,
    alloc: Global,
    fails_at: u64,
) -> Option<Journal<FaultDisk<MemDisk>>> {
    let disk = device(rt, alloc, &DEVICE);
    opened(alloc, FaultDisk::new(disk, fails_at, 0, After::Stops))
}
