//! Device E, a small device of two segments, one of three, and their bytes.
use rly_core::{Geometry, Params};
use rly_disk::{Disk, MemDisk};
use rly_journal::Journal;
use rly_segment::format;
use std::alloc::Global;
use std::process::Abort;

/// One hop, one peer, a window of 8, 16 items and 4,096 bytes, on two segments of the minimum length.
pub(crate) const DEVICE_E: Geometry = Geometry {
    params: Params {
        hops: 1,
        peers: 1,
        window: 8,
        items: 16,
        bytes: 4_096,
        maxpacket: 1_500,
        target: 5_000,
        interval: 100_000,
        payload: 1_200,
    },
    segments: 2,
    length: 82_908,
};

/// Its size in bytes.
pub(crate) const SIZE: usize = 165_880;

/// One hop, one peer, a window of 64, 64 items and 76,800 bytes, on three segments of the minimum length.
pub(crate) const THREE: Geometry = Geometry {
    params: Params {
        hops: 1,
        peers: 1,
        window: 64,
        items: 64,
        bytes: 76_800,
        ..Params::DEFAULT
    },
    segments: 3,
    length: 118_508,
};

/// Makes a disk of zeros of that size.
pub(crate) fn zeroed(rt: &impl Abort, alloc: Global) -> MemDisk {
    MemDisk::new(alloc, vec![in alloc; 0u8; SIZE].expect(rt, "memory"))
}

/// Formats a disk as device E.
pub(crate) fn expect_format<D: Disk>(rt: &impl Abort, alloc: Global, disk: &mut D) {
    expect!(rt; format(alloc, disk, &DEVICE_E) == Ok(()));
}

/// Makes a new device of a geometry, formatted on zeros. The disk has recorded nothing, so that each of its lists has
/// yet to grow.
pub(crate) fn new_device(rt: &impl Abort, alloc: Global, geometry: &Geometry) -> MemDisk {
    assert!(rt; geometry.segments <= 3 && geometry.length <= 118_508);
    let size = 64 + geometry.segments * geometry.length;
    let bytes = vec![in alloc; 0u8; size as usize].expect(rt, "memory");
    let mut disk = MemDisk::new(alloc, bytes);
    expect!(rt; format(alloc, &mut disk, geometry) == Ok(()));
    MemDisk::new(alloc, bytes_of(rt, alloc, &mut disk))
}

/// Opens the journal of a device.
pub(crate) fn opened<D: Disk>(rt: &impl Abort, alloc: Global, disk: D) -> Journal<D> {
    match Journal::open(alloc, disk) {
        Ok(journal) => journal,
        Err(_) => panic!(rt; "the device doesn't open"),
    }
}

/// Returns all bytes of a disk.
pub(crate) fn bytes_of<D: Disk>(rt: &impl Abort, alloc: Global, disk: &mut D) -> Vec<u8> {
    let mut bytes = vec![in alloc; 0u8; disk.size() as usize].expect(rt, "memory");
    expect!(rt; disk.read_at(0, &mut bytes).is_ok());
    bytes
}

/// Returns true iff all of these have one value.
pub(crate) fn are(bytes: &[u8], byte: u8) -> bool {
    bytes.iter().all(|each| *each == byte)
}
