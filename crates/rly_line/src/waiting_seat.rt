//! A seat that submitted asks and did not take their answers yet.

ghost use Rattle.std.specs.Prelude.{◌≡◌, ◌≤◌, [], IfErr, IfOk, length, vec_capacity};
ghost use Rattle.rly_core.specs.Bounds.{IsIn};
ghost use Rattle.rly_line.specs.declared.call_error.BatchError.TheVariants.{Lost};
ghost use Rattle.rly_line.specs.HelpersEnds.{IsWaiting};
ghost use Rattle.rly_line.specs.Seats.{AreAnsweredWith, AreUnanswered, after_put};
ghost use Rattle.rly_line.specs.TakenAnswers.{IsTaken};

use crate::left_seat::LeftSeat;
use crate::seat::Seat;
use crate::seat_ends::SeatEnds;
use rly_machine::{Answer, Ask, SeatId};
use std::alloc::Global;
use std::marker::Model;
use std::snapshot::Snapshot;
use std::sync::Wait;

/// The outcome of `WaitingSeat::take`.
#[must_use]
#[derive(Drop)]
pub enum Taken {
    /// All answers were taken.
    Answered(Seat),
    /// They were not found. That says nothing of the other end: they may be on their way.
    NotYet(WaitingSeat),
    /// No answers come, and the seat is shut.
    Lost(Seat),
}

/// A seat that waits for the answers to its asks. It submits nothing until it took them. The model: the seat before
/// it submitted the asks, and the asks. One that is dropped is as a dropped seat: its asks take effect, and the
/// answering thread is not told.
#[must_use]
#[derive(Drop)]
pub struct WaitingSeat {
    alloc: Global,
    ends: SeatEnds,
    /// The number of asks.
    count: usize,
    before: Snapshot<SeatEnds>,
    asks: Snapshot<Vec<Ask>>,
}

impl Model for WaitingSeat {
    ghost use Rattle.rly_line.specs.HelpersEnds.{IsWaiting};
    ghost use Rattle.rly_line.specs.Seats.{WaitingCaller};

    ghost Value = { WaitingCaller };

    ghost view = { λ s. record { before = s.before.value; asks = s.asks.value.items } };

    ghost invariant = { λ s.
        IsWaiting (record { before = s.before.value; asks = s.asks.value.items }) s.count s.ends };
}

impl WaitingSeat {
    /// The ends of a seat after it submitted `count` asks.
    pub(crate) fn new(
        alloc: Global,
        ends: SeatEnds,
        count: usize,
        before: Snapshot<SeatEnds>,
        asks: Snapshot<Vec<Ask>>,
    ) -> WaitingSeat
        requires { IsWaiting (record { before = before.value; asks = asks.value.items }) count ends }
        ensures { result ≡ record { before = before.value; asks = asks.value.items } }
    {
        WaitingSeat {
            alloc,
            ends,
            count,
            before,
            asks,
        }
    }

    /// The seat's number.
    pub fn id(&self) -> SeatId
        ensures { result ≡ self.now.before.seat }
    {
        self.ends.id()
    }

    /// The number of answers that it waits for.
    pub fn expected_len(&self) -> usize
        ensures count { result ≡ length self.now.asks }
        ensures some { IsIn 1 64 result }
    {
        self.count
    }

    /// Waits for the answers, which come together, in order, into an empty list with room for them. Takes no memory.
    /// `Err`: no answers come, and the seat is shut.
    pub fn wait<R: Wait>(self, rt: &R, answers: &mut Vec<Answer>) -> Result<Seat, Seat>
        requires empty { answers.old.items ≡ [] }
        requires room { length self.asks ≤ vec_capacity answers.old }
        ensures ok { IfOk result (λ after. AreAnsweredWith self.before self.asks answers.new.items after) }
        ensures err { IfErr result (λ after. AreUnanswered self.before self.asks Lost [] after) }
        ensures none_given { IfErr result (λ _. answers.new.items ≡ []) }
        ensures capacity { vec_capacity answers.new ≡ vec_capacity answers.old }
    {
        let WaitingSeat {
            alloc,
            mut ends,
            count,
            before: _before,
            asks: _asks,
        } = self;
        match ends.hear(rt, count) {
            Some(given) => Ok(Seat::answered(alloc, ends, given, answers)),
            None => Err(Seat::shut(alloc, ends)),
        }
    }

    /// Takes the answers if they are there, all together, in order, into an empty list with room for them. Takes no
    /// memory, and doesn't wait for the other end.
    pub fn take<R: Wait>(self, rt: &R, answers: &mut Vec<Answer>) -> Taken
        requires empty { answers.old.items ≡ [] }
        requires room { length self.asks ≤ vec_capacity answers.old }
        ensures taken { IsTaken self result answers.new.items }
        ensures capacity { vec_capacity answers.new ≡ vec_capacity answers.old }
    {
        let WaitingSeat {
            alloc,
            mut ends,
            count,
            before,
            asks,
        } = self;
        match ends.try_hear(rt, count) {
            Some(Some(given)) => Taken::Answered(Seat::answered(alloc, ends, given, answers)),
            Some(None) => Taken::Lost(Seat::shut(alloc, ends)),
            None => Taken::NotYet(WaitingSeat::new(alloc, ends, count, before, asks)),
        }
    }

    /// Leaves without the answers: its asks stay submitted, and the answering thread stops waiting for this seat.
    pub fn leave<R: Wait>(self, rt: &R) -> LeftSeat
        ensures { result ≡ after_put self.before self.asks }
    {
        let WaitingSeat {
            alloc: _alloc,
            mut ends,
            count: _count,
            before: _before,
            asks: _asks,
        } = self;
        ends.leave(rt);
        LeftSeat::new(ends)
    }
}
