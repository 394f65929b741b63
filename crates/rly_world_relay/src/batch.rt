//! The unit that a seat submits.

ghost use Rattle.std.specs.Prelude.{◌≡◌, ◌+◌, ◌<◌, ◌≤◌, ◌^◌, ◌++◌, IfOk, length, vec_capacity};
ghost use Rattle.rly_core.specs.Bounds.{IsIn};
ghost use Rattle.rly_world.specs.RelaySteps.{calls_from};

use rly_machine::{Ask, Call, SeatId};
use std::alloc::{AllocError, Global};
use std::marker::Model;

/// A list of 1 to 64 calls of a seat. In contracts it is that list.
#[derive(Drop)]
pub(crate) struct Batch {
    calls: Vec<Call>,
}

impl Model for Batch {
    ghost use Rattle.std.specs.Prelude.{List, length};
    ghost use Rattle.rly_core.specs.Bounds.{IsIn};
    ghost use Rattle.rly_machine.specs.declared.call.Call.{Call as ACall};

    ghost Value = { List ACall };

    ghost view = { λ batch. batch.calls.items };

    ghost invariant = { λ batch. IsIn 1 64 (length batch.calls.items) };
}

impl Batch {
    /// Makes a batch of requests with a seat's next numbers.
    pub(crate) fn of(
        alloc: Global,
        seat: SeatId,
        asked: u64,
        asks: Vec<Ask>,
    ) -> Result<Batch, AllocError>
        requires count { IsIn 1 64 (length asks.items) }
        requires room { asked + length asks.items < 2 ^ 64 }
        ensures { IfOk result (λ batch. batch ≡ calls_from seat.0 asked asks.items) }
    {
        let mut calls = Vec::with_capacity(alloc, asks.len())?;
        let mut number = asked;
        for ask in asks {
            number += 1;
            calls.push_reserved(Call { seat, number, ask });
        }
        Ok(Batch { calls })
    }

    /// Returns its number of calls.
    pub(crate) fn len(&self) -> usize
        ensures length { result ≡ length self.now }
        ensures count { IsIn 1 64 (length self.now) }
    {
        self.calls.len()
    }

    /// Appends its calls to others, with the capacity already reserved.
    pub(crate) fn add_to(self, calls: &mut Vec<Call>)
        requires { length calls.old.items + length self ≤ vec_capacity calls.old }
        ensures calls { calls.new.items ≡ calls.old.items ++ self }
        ensures capacity { vec_capacity calls.new ≡ vec_capacity calls.old }
    {
        for call in self.calls {
            calls.push_reserved(call);
        }
    }
}
