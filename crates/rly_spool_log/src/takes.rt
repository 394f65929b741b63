//! The last datagrams that a spool stored.

ghost use Rattle.std.specs.Prelude.{◌≡◌, ◌≤◌, [], IfOk};
ghost use Rattle.rly_spool_log.specs.SpoolLog.{origin_in, with_stored};

use rly_core::PeerId;
use rly_station::Origin;
use std::alloc::{AllocError, Global};
use std::collections::VecDeque;
use std::marker::Model;

/// A datagram that was stored.
#[derive(Clone, Copy, PartialEq, Eq)]
pub(crate) struct Stored {
    pub(crate) id: u64,
    /// The neighbour that sent it.
    pub(crate) peer: PeerId,
    /// Its destination, if its payload names one.
    pub(crate) destination: Option<u16>,
    /// Its arrival, in microseconds of its hop's link clock.
    pub(crate) stamp: u64,
}

/// The last datagrams that a spool stored since its start, at most `kept` of them. Their memory is reserved once.
#[derive(Drop)]
pub(crate) struct Takes {
    items: VecDeque<Stored>,
}

impl Model for Takes {
    ghost use Rattle.std.specs.Prelude.{◌≤◌};
    ghost use Rattle.std.specs.VecDeque.{deque_capacity};
    ghost use Rattle.rly_spool_log.specs.SpoolLog.{TakesView};

    ghost Value = { TakesView };

    ghost view = { λ t. record { kept = deque_capacity t.items; items = t.items.items } };

    ghost invariant = { λ t. 1 ≤ deque_capacity t.items };
}

impl Takes {
    /// None yet, with room for the last `kept`.
    pub(crate) fn reserve(alloc: Global, kept: usize) -> Result<Takes, AllocError>
        requires { 1 ≤ kept }
        ensures { IfOk result (λ takes. takes ≡ record { kept = kept; items = [] }) }
    {
        Ok(Takes {
            items: VecDeque::with_capacity(alloc, kept)?,
        })
    }

    /// One more was stored.
    pub(crate) fn push(&mut self, stored: Stored)
        ensures { self.new ≡ with_stored self.old stored }
    {
        if self.items.len() == self.items.capacity() {
            self.items.pop_front();
        }
        self.items.push_back_reserved(stored);
    }

    /// The origin of a datagram that is discarded at a moment of its hop's link clock, if it is one of these.
    pub(crate) fn origin(&self, id: u64, now: u64) -> Option<Origin>
        ensures { result ≡ origin_in self.now.items id now }
    {
        for stored in self.items.iter() {
            if stored.id == id {
                return Some(Origin {
                    peer: stored.peer,
                    destination: stored.destination,
                    waited: now.saturating_sub(stored.stamp),
                });
            }
        }
        None
    }
}
