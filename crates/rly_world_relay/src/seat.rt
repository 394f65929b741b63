//! The seat (client handle) of a simulated relay.

ghost use Rattle.std.specs.Prelude.{◌≡◌, ◌≢◌, ◌+◌, ◌-◌, ◌≤◌, ◌++◌, ◌∷◌, [], true, false, IfOk, OnErr, OnOk, length};
ghost use Rattle.rly_core.specs.Bounds.{IsIn};
ghost use Rattle.rly_world.specs.RelaySteps.{calls_from};
ghost use Rattle.rly_world.specs.RelayWorld.{new_seat};

use crate::batch::Batch;
use rly_machine::{Answer, Ask, SeatId};
use std::alloc::{AllocError, Global};
use std::marker::Model;

/// A seat of a simulated relay. In contracts it is that of the model, and the spare capacity of its reply queue.
#[derive(Drop)]
pub(crate) struct Seat {
    asked: u64,
    waits: bool,
    replies: Vec<Answer>,
    known: Vec<Answer>,
}

impl Model for Seat {
    ghost use Rattle.std.specs.Prelude.{◌-◌, length, vec_capacity};
    ghost use Rattle.rly_world_relay.specs.HelpersSeats.{RoomySeat};

    ghost Value = { RoomySeat };

    ghost view = { λ s. record {
      seat = record { asked = s.asked; waits = s.waits; replies = s.replies.items; known = s.known.items };
      room = vec_capacity s.replies - length s.replies.items;
    } };
}

impl Seat {
    /// Makes a seat that has submitted nothing.
    pub(crate) fn new(alloc: Global) -> Seat
        ensures { result.seat ≡ new_seat }
    {
        Seat {
            asked: 0,
            waits: false,
            replies: Vec::new(alloc),
            known: Vec::new(alloc),
        }
    }

    /// Returns true iff it waits for replies.
    pub(crate) fn waits(&self) -> bool
        ensures { result ≡ self.now.seat.waits }
    {
        self.waits
    }

    /// Returns true iff its reply queue has replies.
    pub(crate) fn has_replies(&self) -> bool
        ensures some { result ≡ true → self.now.seat.replies ≢ [] }
        ensures none { result ≡ false → self.now.seat.replies ≡ [] }
    {
        !self.replies.is_empty()
    }

    /// Submits requests: it waits from then on. If a call number would exceed 64 bits, the error is that of a failed
    /// allocation.
    pub(crate) fn put(
        &mut self,
        alloc: Global,
        seat: SeatId,
        asks: Vec<Ask>,
    ) -> Result<Batch, AllocError>
        requires { IsIn 1 64 (length asks.items) }
        ensures err { OnErr result (self.new ≡ self.old) }
        ensures batch { IfOk result (λ batch. batch ≡ calls_from seat.0 self.old.seat.asked asks.items) }
        ensures ok { OnOk result
            (self.new.seat ≡ record self.old.seat { asked = self.old.seat.asked + length asks.items; waits = true }) }
    {
        let Some(asked) = self.asked.checked_add(asks.len() as u64) else {
            return Err(AllocError);
        };
        let batch = Batch::of(alloc, seat, self.asked, asks)?;
        self.asked = asked;
        self.waits = true;
        Ok(batch)
    }

    /// Receives the replies in its reply queue, and may submit again.
    pub(crate) fn hear(&mut self) -> Result<(), AllocError>
        ensures err { OnErr result (self.new ≡ self.old) }
        ensures ok { OnOk result (self.new.seat
            ≡ record self.old.seat {
              waits = false;
              replies = [];
              known = self.old.seat.known
                  ++ self.old.seat.replies;
            }) }
    {
        self.known.append(&mut self.replies)?;
        self.waits = false;
        Ok(())
    }

    /// Reserves memory in its reply queue for `count` more replies.
    pub(crate) fn reserve(&mut self, count: usize) -> Result<(), AllocError>
        ensures same { self.new.seat ≡ self.old.seat }
        ensures room { OnOk result (count ≤ self.new.room) }
    {
        self.replies.reserve(count)
    }

    /// Puts a reply into its reply queue.
    pub(crate) fn reply(&mut self, answer: Answer)
        requires { 1 ≤ self.old.room }
        ensures seat { self.new.seat ≡ record self.old.seat { replies = self.old.seat.replies ++ answer ∷ [] } }
        ensures room { self.new.room ≡ self.old.room - 1 }
    {
        self.replies.push_reserved(answer);
    }

    /// Returns the replies that it has received.
    pub(crate) fn known(&self) -> &[Answer]
        ensures { result.now ≡ self.now.seat.known }
    {
        &self.known
    }

    /// Drops all of its state.
    pub(crate) fn forget(&mut self)
        ensures { self.new.seat ≡ new_seat }
    {
        self.asked = 0;
        self.waits = false;
        self.replies.clear();
        self.known.clear();
    }
}
