//! The reorder buffer of a worker's link.

ghost use Rattle.std.specs.Prelude.{◌≡◌, IfOk, OnErr};
ghost use Rattle.rly_link_udp.specs.LinkReorder.{IsPeer, reorder_for};

use rly_hop::StationId;
use rly_link::Worker;
use rly_link_reorder::ReorderBuffer;
use std::alloc::{AllocError, Global};

/// The reorder buffer of a link, and its two stations: this one and the neighbour.
#[derive(Drop)]
pub(crate) struct LinkReorder {
    pub(crate) own: StationId,
    pub(crate) peer: StationId,
    pub(crate) early: ReorderBuffer,
}

impl LinkReorder {
    /// The initial reorder buffer of a worker's link. For a peer it has room for 64 Data in packets of at most
    /// `longest` bytes. For a hop it has none, since a hop sends no Data.
    pub(crate) fn new(
        alloc: Global,
        own: StationId,
        peer: StationId,
        worker: Worker,
        longest: usize,
    ) -> Result<LinkReorder, AllocError>
        ensures kept { IfOk result (λ k. k ≡ reorder_for own peer longest worker) }
        // Only the link of a peer takes memory.
        ensures refused { OnErr result (IsPeer worker) }
    {
        let early = match worker {
            Worker::Receiver(_) => ReorderBuffer::new(alloc, longest)?,
            Worker::Sender(_) => ReorderBuffer::without_room(alloc),
        };
        Ok(LinkReorder { own, peer, early })
    }
}
