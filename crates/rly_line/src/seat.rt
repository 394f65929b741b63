ghost use Rattle.std.specs.Prelude.{◌≡◌, ◌+◌, ◌++◌, ◌^◌, ◌<◌, ◌≤◌, ◌⊎◌, [], Err, false, true, vec_capacity, IfErr};
ghost use Rattle.std.specs.Prelude.{IfOk, OnOk, length};
ghost use Rattle.rly_core.specs.Bounds.{IsIn};
ghost use Rattle.rly_line.specs.declared.call_error.BatchError.TheVariants.{Closed};
ghost use Rattle.rly_line.specs.HelpersEnds.{AreAllAnswered, new_hearer};
ghost use Rattle.rly_line.specs.Seats.{AreAnsweredWith, AreUnanswered, IsAnsweredWith, IsNotPut, IsUnanswered};
ghost use Rattle.rly_line.specs.Seats.{MayPutNoMore, new_caller};
ghost use Rattle.rly_line.specs.Submission.{IsBeginning};

use crate::batch::Answers;
use crate::call_error::{BatchError, CallError};
use crate::left_seat::LeftSeat;
use crate::replies::HearingEnd;
use crate::seat_ends::SeatEnds;
use crate::submission::{SubmitEnd, TakeEnd};
use crate::waiting_seat::WaitingSeat;
use rly_core::limits;
use rly_machine::{Answer, Ask, SeatId};
use std::alloc::{AllocError, Global};
use std::marker::Model;
use std::mem;
use std::snapshot::Snapshot;
use std::sync::Wait;

/// Maximum number of asks in a batch.
const MAX_ASKS: usize = limits::MAX_ROUND as usize;

/// A client handle. The model: its submission queue, its answer queue, its number, the calls that it submitted, the
/// base state and the history that it knows, whether it is shut, and whether the queue refused a batch.
#[derive(Drop)]
pub struct Seat {
    alloc: Global,
    ends: SeatEnds,
    asks: Vec<Ask>,
    answers: Vec<Answer>,
}

impl Model for Seat {
    ghost use Rattle.std.specs.Prelude.{◌≡◌, false};
    ghost use Rattle.rly_line.specs.HelpersEnds.{IsIdle};
    ghost use Rattle.rly_line.specs.Seats.{Caller};

    ghost Value = { Caller };

    ghost view = { λ s. s.ends };

    ghost invariant = { λ s. s.ends.shut ≡ false → IsIdle s.ends s.asks s.answers };
}

impl Seat {
    /// A seat at its two ends, without calls.
    pub(crate) fn new(
        alloc: Global,
        seat: SeatId,
        line: SubmitEnd,
        replies: HearingEnd,
    ) -> Result<Seat, AllocError>
        requires line { line ≡ record line { seat = seat.0; put = []; refused = false } }
        requires replies { replies ≡ new_hearer replies.of seat.0 }
        ensures { IfOk result (λ made. made ≡ new_caller line.of replies.of seat.0) }
    {
        let asks = Vec::with_capacity(alloc, MAX_ASKS)?;
        let answers = Vec::with_capacity(alloc, MAX_ASKS)?;
        let ends = SeatEnds::new(seat, line, replies);
        Ok(Seat {
            alloc,
            ends,
            asks,
            answers,
        })
    }

    /// The seat at these ends after its last asks were answered, in the memory of these answers, which it moves into
    /// an empty list with room for them.
    pub(crate) fn answered(
        alloc: Global,
        ends: SeatEnds,
        given: Answers,
        answers: &mut Vec<Answer>,
    ) -> Seat
        requires all { AreAllAnswered ends }
        requires empty { answers.old.items ≡ [] }
        requires room { length given.answers ≤ vec_capacity answers.old }
        ensures seat { result ≡ ends }
        ensures answers { answers.new.items ≡ given.answers }
        ensures capacity { vec_capacity answers.new ≡ vec_capacity answers.old }
    {
        let (asks, mut given) = given.into_lists();
        move_all(&mut given, answers);
        Seat {
            alloc,
            ends,
            asks,
            answers: given,
        }
    }

    /// The seat at these ends, which is shut.
    pub(crate) fn shut(alloc: Global, ends: SeatEnds) -> Seat
        requires { ends.shut ≡ true }
        ensures { result ≡ ends }
    {
        Seat {
            alloc,
            ends,
            asks: Vec::new(alloc),
            answers: Vec::new(alloc),
        }
    }

    /// The calls received are a prefix of those that it submitted.
    pub(crate) fn law_beginning(self, end: &mut TakeEnd) -> Seat
        requires { self.of ≡ end.old.of }
        ensures same { (end.new ≡ end.old) × (result ≡ self) }
        ensures begins { IsBeginning self.seat.0 end.old.taken self.put }
    {
        let Seat {
            alloc,
            ends,
            asks,
            answers,
        } = self;
        let ends = ends.law_beginning(end);
        Seat {
            alloc,
            ends,
            asks,
            answers,
        }
    }

    /// Leaves: the answering thread stops waiting for this seat. The owner drops the seat instead, or leaves it and
    /// keeps the remains for `ClosedEnd::law_left`.
    pub fn leave<R: Wait>(self, rt: &R) -> LeftSeat
        ensures { result ≡ self }
    {
        let Seat {
            alloc: _alloc,
            mut ends,
            asks: _asks,
            answers: _answers,
        } = self;
        ends.leave(rt);
        LeftSeat::new(ends)
    }

    /// Its number.
    pub fn id(&self) -> SeatId
        ensures { result ≡ self.now.seat }
    {
        self.ends.id()
    }

    /// Submits an ask and waits for the answer. `Closed`: the call was not submitted, and is handed back; the queue
    /// refused it, or the seat is shut, or made 2^52 calls. `Lost`: it was submitted, no answer came, and the seat
    /// is shut.
    pub fn call<R: Wait>(&mut self, rt: &R, ask: Ask) -> Result<Answer, CallError>
        ensures ok { IfOk result (λ answer. IsAnsweredWith self.old ask answer self.new) }
        ensures err { IfErr result (λ error. IsUnanswered self.old ask error self.new) }
        ensures shut { (self.old.shut ≡ true) ⊎ (2 ^ 52 ≤ length self.old.put) → IsNotPut result }
    {
        if !self.ends.may_put(1) {
            return Err(CallError::Closed(ask));
        }
        let mut asks = mem::replace(&mut self.asks, Vec::new(self.alloc));
        let answers = mem::replace(&mut self.answers, Vec::new(self.alloc));
        asks.push_reserved(ask);
        match self.ends.exchange(rt, self.ends.batch(asks, answers)) {
            Ok(given) => {
                let (asks, mut answers) = given.into_lists();
                let answer = answers.take_last();
                self.asks = asks;
                self.answers = answers;
                Ok(answer)
            }
            Err(Some(back)) => {
                let (mut asks, answers) = back.into_lists();
                let ask = asks.take_last();
                self.asks = asks;
                self.answers = answers;
                Err(CallError::Closed(ask))
            }
            Err(None) => Err(CallError::Lost),
        }
    }

    /// Submits all of these together and waits for their answers, which come together, in order, into an empty list
    /// with room for them. Takes no memory. `Closed`: none was submitted, and they stay in the list. `Lost`: they
    /// were submitted, no answers came, and the seat is shut. A seat that is shut, or would make more than 2^52
    /// calls, returns `Closed`.
    pub fn call_all<R: Wait>(
        &mut self,
        rt: &R,
        asks: &mut Vec<Ask>,
        answers: &mut Vec<Answer>,
    ) -> Result<(), BatchError>
        requires count { IsIn 1 64 (length asks.old.items) }
        requires empty { answers.old.items ≡ [] }
        requires room { length asks.old.items ≤ vec_capacity answers.old }
        ensures ok { OnOk result (AreAnsweredWith self.old asks.old.items answers.new.items self.new) }
        ensures none_left { OnOk result (asks.new.items ≡ []) }
        ensures err { IfErr result (λ error. AreUnanswered self.old asks.old.items error asks.new.items self.new) }
        ensures none_given { IfErr result (λ _. answers.new.items ≡ []) }
        ensures shut { (self.old.shut ≡ true) ⊎ (2 ^ 52 < length self.old.put + length asks.old.items)
            → result ≡ Err Closed }
        ensures capacity { (vec_capacity asks.new ≡ vec_capacity asks.old)
            × (vec_capacity answers.new ≡ vec_capacity answers.old) }
    {
        if !self.ends.may_put(asks.len()) {
            return Err(BatchError::Closed);
        }
        let mut own_asks = mem::replace(&mut self.asks, Vec::new(self.alloc));
        let own_answers = mem::replace(&mut self.answers, Vec::new(self.alloc));
        move_all(asks, &mut own_asks);
        match self
            .ends
            .exchange(rt, self.ends.batch(own_asks, own_answers))
        {
            Ok(given) => {
                let (own_asks, mut own_answers) = given.into_lists();
                move_all(&mut own_answers, answers);
                self.asks = own_asks;
                self.answers = own_answers;
                Ok(())
            }
            Err(Some(back)) => {
                let (mut own_asks, own_answers) = back.into_lists();
                move_all(&mut own_asks, asks);
                self.asks = own_asks;
                self.answers = own_answers;
                Err(BatchError::Closed)
            }
            Err(None) => Err(BatchError::Lost),
        }
    }

    /// Submits all of these together, and returns the seat that waits for their answers. Waits only while the queue is
    /// full, and takes no memory. `Err`: none was submitted, and they stay in the list; the queue refused them, or the
    /// seat is shut, or would make more than 2^52 calls.
    pub fn put<R: Wait>(self, rt: &R, asks: &mut Vec<Ask>) -> Result<WaitingSeat, Seat>
        requires count { IsIn 1 64 (length asks.old.items) }
        ensures ok { IfOk result (λ waiting. waiting ≡ record { before = self; asks = asks.old.items }) }
        ensures none_left { OnOk result (asks.new.items ≡ []) }
        ensures err { IfErr result (λ after. AreUnanswered self asks.old.items Closed asks.new.items after) }
        ensures shut { MayPutNoMore self (length asks.old.items) → result ≡ Err self }
        ensures capacity { vec_capacity asks.new ≡ vec_capacity asks.old }
    {
        let count = asks.len();
        if !self.ends.may_put(count) {
            return Err(self);
        }
        let submitted = Snapshot::of(&*asks);
        let Seat {
            alloc,
            mut ends,
            asks: mut own_asks,
            answers: own_answers,
        } = self;
        let before = Snapshot::of(&ends);
        move_all(asks, &mut own_asks);
        match ends.put(rt, ends.batch(own_asks, own_answers)) {
            Ok(()) => Ok(WaitingSeat::new(alloc, ends, count, before, submitted)),
            Err(back) => {
                let (mut own_asks, own_answers) = back.into_lists();
                move_all(&mut own_asks, asks);
                Err(Seat {
                    alloc,
                    ends,
                    asks: own_asks,
                    answers: own_answers,
                })
            }
        }
    }
}

/// Moves all elements of one list to the end of another, which has room for them.
fn move_all<T: Drop>(from: &mut Vec<T>, to: &mut Vec<T>)
    requires room { length from.old.items + length to.old.items ≤ vec_capacity to.old }
    ensures emptied { from.new.items ≡ [] }
    ensures moved { to.new.items ≡ to.old.items ++ from.old.items }
    ensures from_capacity { vec_capacity from.new ≡ vec_capacity from.old }
    ensures to_capacity { vec_capacity to.new ≡ vec_capacity to.old }
{
    for item in from.drain(..) {
        to.push_reserved(item);
    }
}
