//! The steps of a simulated relay.

use rly_disk::{After, Torn};
use rly_machine::{Ask, SeatId};

/// One step of a relay.
#[derive(Drop)]
pub enum Step {
    /// A seat submits 1 to 64 requests. One that waits for replies submits nothing.
    Put(SeatId, Vec<Ask>),
    /// A round of the journal: whole batches are taken until they have at least this many requests.
    Round(u64),
    /// A seat receives all replies in its reply queue.
    Hear(SeatId),
    /// The relay stops, and its disk has the bytes that such a crash leaves.
    Crash(Torn),
    /// The relay is opened on its disk, whose call number `at`, counted from 1, fails; with 0 none does.
    Opening { at: u64, torn: u64, after: After },
}
