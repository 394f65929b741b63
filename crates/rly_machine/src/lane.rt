ghost use Rattle.std.specs.Prelude.{◌≡◌, ◌+◌, ◌<◌, ◌≤◌, ◌^◌, List, drop, length};
ghost use Rattle.rly_codel.specs.LaneItems.{LaneItem, lane_bytes};
ghost use Rattle.rly_machine.specs.Pick.{waiting_of};

use crate::content::Content;
use crate::queue::Queue;
use rly_codel::Lane;
use std::marker::Model;

/// A hop's queue as CoDel sees it, without its first `from` items.
#[derive(Drop)]
pub(crate) struct QueueLane<'a, C: Content> {
    queue: &'a Queue<C>,
    /// The number of items at the front that are left out.
    from: usize,
    /// The number of items that are seen.
    count: usize,
}

impl<'a, C: Content> Model for QueueLane<'a, C> {
    ghost Value = { List LaneItem };

    ghost view = { λ lane. waiting_of C.length_of (drop lane.from lane.queue.now.items) };

    ghost invariant = { λ lane. (lane.from + lane.count ≡ length lane.queue.now.items)
        × (lane.from + lane.count < 2 ^ 63)
        × (lane_bytes (waiting_of C.length_of (drop lane.from lane.queue.now.items)) < 2 ^ 64) };
}

impl<'a, C: Content> QueueLane<'a, C> {
    /// Makes a view of the queue without its first `from` items.
    pub(crate) fn new(queue: &'a Queue<C>, from: usize) -> QueueLane<'a, C>
        requires from { from ≤ length queue.now.items }
        requires bytes { lane_bytes (waiting_of C.length_of (drop from queue.now.items)) < 2 ^ 64 }
        ensures { result ≡ waiting_of C.length_of (drop from queue.now.items) }
    {
        let count = queue.len() - from;
        QueueLane { queue, from, count }
    }
}

impl<'a, C: Content> Lane for QueueLane<'a, C> {
    ghost waiting = { λ lane. lane };

    fn count(&self) -> usize {
        self.count
    }

    fn stamp(&self, index: usize) -> u64 {
        self.queue.item(self.from + index).stamp
    }

    fn bytes_behind(&self, index: usize) -> u64 {
        self.queue.bytes_behind(self.from + index)
    }
}
