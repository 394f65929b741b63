ghost use Rattle.std.specs.Prelude.{◌≡◌, ◌+◌, ◌<◌, [], IfOk, OnErr, vec_capacity};

use std::alloc::{AllocError, Global};
use std::marker::Model;

/// The memory for one command, allocated by `Machine::reserve_for`. In contracts it is its capacity for expired and for
/// dropped ids.
#[derive(Drop)]
pub struct Room {
    expired: Vec<u64>,
    dropped: Vec<u64>,
}

impl Model for Room {
    ghost use Rattle.std.specs.Prelude.{◌≡◌, [], vec_capacity};
    ghost use Rattle.rly_machine.specs.State.{RoomState};

    ghost Value = { RoomState };

    ghost view = { λ room. record { expired = vec_capacity room.expired; dropped = vec_capacity room.dropped } };

    ghost invariant = { λ room. (room.expired.items ≡ []) × (room.dropped.items ≡ []) };
}

impl Room {
    /// Reserves room for exactly this many ids of each kind. Allocates nothing for 0.
    pub(crate) fn new(alloc: Global, expired: usize, dropped: usize) -> Result<Room, AllocError>
        ensures room { IfOk result (λ room. (room.expired ≡ expired) × (room.dropped ≡ dropped)) }
        ensures memory { OnErr result (0 < expired + dropped) }
    {
        Ok(Room {
            expired: Vec::with_capacity(alloc, expired)?,
            dropped: Vec::with_capacity(alloc, dropped)?,
        })
    }

    /// Makes a room for no ids. Allocates nothing.
    pub(crate) fn none(alloc: Global) -> Room
        ensures { (result.expired ≡ 0) × (result.dropped ≡ 0) }
    {
        Room {
            expired: Vec::new(alloc),
            dropped: Vec::new(alloc),
        }
    }

    /// Returns the number of ids that it has room for.
    pub fn count(&self) -> usize
        ensures { result ≡ self.now.expired + self.now.dropped }
    {
        self.expired.capacity() + self.dropped.capacity()
    }

    /// Returns the empty lists, the one for expired ids first.
    pub(crate) fn into_lists(self) -> (Vec<u64>, Vec<u64>)
        ensures empty { (result.0.items ≡ []) × (result.1.items ≡ []) }
        ensures room { (vec_capacity result.0 ≡ self.expired) × (vec_capacity result.1 ≡ self.dropped) }
    {
        (self.expired, self.dropped)
    }
}
