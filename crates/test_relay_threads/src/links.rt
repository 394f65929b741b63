//! Links in memory.

use rly_link::MemLink;
use std::alloc::Global;
use std::process::Abort;

/// A link that receives these packets, in order, and stores those that are sent. No call of it fails.
pub(super) fn link_with<R: Abort>(rt: &R, alloc: Global, packets: &[&[u8]]) -> MemLink {
    let mut coming = Vec::new(alloc);
    for packet in packets {
        give(rt, alloc, &mut coming, *packet);
    }
    MemLink::new(alloc, coming, 0)
}

/// Adds a packet to the receives.
pub(super) fn give<R: Abort>(
    rt: &R,
    alloc: Global,
    coming: &mut Vec<Option<Vec<u8>>>,
    packet: &[u8],
) {
    let given = Some(packet.to_vec(alloc).expect(rt, "memory"));
    coming.push(given).expect(rt, "memory");
}
