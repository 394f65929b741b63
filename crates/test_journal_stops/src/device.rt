//! The devices at the start of the scripts.
use rly_core::{Geometry, Params};
use rly_disk::{Disk, MemDisk};
use rly_journal::Journal;
use rly_segment::format;
use std::alloc::Global;
use std::process::Abort;

/// One hop, one peer, a window of 64, 64 items and 76,800 bytes, on three segments of the minimum length.
pub(crate) const THREE: Geometry = Geometry {
    params: Params {
        hops: 1,
        peers: 1,
        window: 64,
        items: 64,
        bytes: 76_800,
        ..Params::DEFAULT
    },
    segments: 3,
    length: 118_508,
};

/// One hop, one peer, a window of 8, 16 items and 4,096 bytes, on two segments of the minimum length.
pub(crate) const SMALL: Geometry = Geometry {
    params: Params {
        hops: 1,
        peers: 1,
        window: 8,
        items: 16,
        bytes: 4_096,
        ..Params::DEFAULT
    },
    segments: 2,
    length: 82_908,
};

/// The same spool on four segments of their minimum length.
pub(crate) const FOUR: Geometry = Geometry {
    segments: 4,
    length: 80_177,
    ..SMALL
};

/// One hop, one peer, a window of 64, 64 items and 524,288 bytes, on three segments of the minimum length for payloads
/// of 8,192 bytes.
pub(crate) const LONG: Geometry = Geometry {
    params: Params {
        hops: 1,
        peers: 1,
        window: 64,
        items: 64,
        bytes: 524_288,
        payload: 8_192,
        ..Params::DEFAULT
    },
    segments: 3,
    length: 789_740,
};

/// Returns the bytes of a new device of a geometry, on zeros.
pub(crate) fn new_image(rt: &impl Abort, alloc: Global, geometry: &Geometry) -> Vec<u8> {
    assert!(rt; geometry.segments <= 4 && geometry.length <= 789_740);
    let size = 64 + geometry.segments * geometry.length;
    let bytes = vec![in alloc; 0u8; size as usize].expect(rt, "memory");
    let mut disk = MemDisk::new(alloc, bytes);
    expect!(rt; format(alloc, &mut disk, geometry) == Ok(()));
    bytes_of(rt, alloc, &mut disk)
}

/// Returns those of a device of version 1: the header of program versions with a fixed payload limit of 1,200 bytes,
/// and `ff` after its fields.
pub(crate) fn first_version(rt: &impl Abort, alloc: Global) -> Vec<u8> {
    let mut image = new_image(rt, alloc, &THREE);
    assert!(rt; image.len() == 355_588);
    image[10] = 1;
    image[51..64].fill(0xff);
    image
}

/// Opens the journal of a device.
pub(crate) fn opened<D: Disk>(rt: &impl Abort, alloc: Global, disk: D) -> Journal<D> {
    match Journal::open(alloc, disk) {
        Ok(journal) => journal,
        Err(_) => panic!(rt; "the device doesn't open"),
    }
}

/// Returns all bytes of a disk.
pub(crate) fn bytes_of<D: Disk>(rt: &impl Abort, alloc: Global, disk: &mut D) -> Vec<u8> {
    let mut bytes = vec![in alloc; 0u8; disk.size() as usize].expect(rt, "memory");
    expect!(rt; disk.read_at(0, &mut bytes).is_ok());
    bytes
}

/// Returns the gate, the generation and the length field of a segment's head.
pub(crate) fn head_at(
    rt: &impl Abort,
    bytes: &[u8],
    geometry: &Geometry,
    segment: u64,
) -> [u8; 13] {
    assert!(rt;
        segment < geometry.segments && geometry.segments <= 3 && geometry.length <= 789_740
    );
    let place = (64 + segment * geometry.length) as usize;
    assert!(rt; place <= bytes.len() && 13 <= bytes.len() - place);
    let mut head = [0; 13];
    head.copy_from_slice(&bytes[place..place + 13]);
    head
}
