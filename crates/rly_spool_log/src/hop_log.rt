//! What a spool's log knows of a hop.

ghost use Rattle.std.specs.Prelude.{◌≡◌};
ghost use Rattle.rly_spool_log.specs.SpoolLog.{crowding_number, discard_number, new_hop, with_discarded, with_gone, with_one};

use rly_station::{Discard, KindCount};

/// What a spool's log knows of a hop: the discards so far, the number of its datagrams, and whether it was logged that they
/// are more than half of the spool.
#[derive(Clone, Copy, PartialEq, Eq)]
pub struct HopLog {
    dropped: KindCount,
    expired: KindCount,
    items: u64,
    is_crowding: bool,
}

impl HopLog {
    /// A hop with this many datagrams, of which none was discarded yet.
    pub fn new(items: u64) -> HopLog
        ensures { result ≡ new_hop items }
    {
        HopLog {
            dropped: KindCount::new(),
            expired: KindCount::new(),
            items,
            is_crowding: false,
        }
    }

    /// One of its datagrams is discarded at a moment. Returns the number of the discards of this cause if it is to be logged.
    pub(crate) fn discard(&mut self, cause: Discard, now: u64) -> Option<u64>
        ensures number { result ≡ discard_number self.old cause now }
        ensures after { self.new ≡ with_discarded self.old cause now }
    {
        match cause {
            Discard::Dropped => self.dropped.add(now),
            Discard::Expired => self.expired.add(now),
        }
    }

    /// A datagram is stored for it, in a spool of at most `limit`. Returns the number of its datagrams if they are now more
    /// than half of that.
    pub(crate) fn store(&mut self, limit: u64) -> Option<u64>
        ensures number { result ≡ crowding_number self.old limit }
        ensures after { self.new ≡ with_one self.old limit }
    {
        self.items = self.items.saturating_add(1);
        if self.is_crowding || self.items <= limit / 2 {
            return None;
        }
        self.is_crowding = true;
        Some(self.items)
    }

    /// This many of its datagrams left the spool. Once they are at most a quarter of it, more than half is logged again.
    pub(crate) fn release(&mut self, count: u64, limit: u64)
        ensures { self.new ≡ with_gone self.old count limit }
    {
        self.items = self.items.saturating_sub(count);
        if self.items <= limit / 4 {
            self.is_crowding = false;
        }
    }
}
