ghost use Rattle.std.specs.Prelude.{◌≡◌, ◌+◌, ◌<◌, List, length, drop, HoldsAt};
ghost use Rattle.rly_codel.specs.LaneItems.{LaneItem, lane_bytes};

/// A queue as CoDel sees it: items from the front on, each with a stamp and a payload length.
pub trait Lane {
    /// The waiting items, the front first.
    ghost waiting: { Self → List LaneItem };

    /// Returns the number of waiting items.
    fn count(&self) -> usize
        ensures { result ≡ length (waiting self.now) };

    /// Returns the time at which an item came, in microseconds.
    fn stamp(&self, index: usize) -> u64
        requires { index < length (waiting self.now) }
        ensures { HoldsAt (λ item. item.stamp ≡ result) (waiting self.now) index };

    /// Returns the number of payload bytes after an item, without its own. CoDel calls it once for each drop candidate,
    /// so it should not scan those items.
    fn bytes_behind(&self, index: usize) -> u64
        requires { index < length (waiting self.now) }
        ensures { result ≡ lane_bytes (drop (index + 1) (waiting self.now)) };
}
